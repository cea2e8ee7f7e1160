// The checks of *weigh* up to 24, as the opening of a tally makes them, too.
ghost use Rattle.std.specs.Prelude.{◌≡◌};
ghost use Rattle.weigh.specs.Checks.{check_number};
ghost use Rattle.weigh.specs.declared.check.CheckRefusal.TheVariants.{Sheet as OfSheet, Plan as OfPlan};
ghost use Rattle.weigh.specs.Inner.{PairRead};

use plan::PlanRefusal;
use sheet::{Sheet, SheetRefusal};
use words::Refusal;

// Why a plan's tree cannot be weighed under a sheet's limit, in the order of the checks.
#[derive(Clone, Copy, Debug, PartialEq, Eq)]
pub enum CheckRefusal {
    Sheet(SheetRefusal),
    Plan(PlanRefusal),
    NodesDiffer,
    Primary,
}

impl From<SheetRefusal> for CheckRefusal {
    ghost from_gives = { λ r made. made ≡ OfSheet r };

    fn from(r: SheetRefusal) -> CheckRefusal {
        CheckRefusal::Sheet(r)
    }
}

impl From<PlanRefusal> for CheckRefusal {
    ghost from_gives = { λ r made. made ≡ OfPlan r };

    fn from(r: PlanRefusal) -> CheckRefusal {
        CheckRefusal::Plan(r)
    }
}

impl Refusal for CheckRefusal {
    ghost number_of = { check_number };

    fn number(self) -> u32 {
        match self {
            CheckRefusal::Sheet(r) => r.number(),
            CheckRefusal::Plan(r) => r.number(),
            CheckRefusal::NodesDiffer => 21,
            CheckRefusal::Primary => 24,
        }
    }
}

// Reads a sheet and a plan that has a tree of as many nodes.
pub fn read_pair(sheet: &[u8], plan: &[u8]) -> Result<Sheet, CheckRefusal>
    ensures { PairRead sheet.now plan.now result }
{
    let s = sheet::read_sheet(sheet)?;
    let p = plan::read_plan(plan)?;
    if s.n != p.n {
        return Err(CheckRefusal::NodesDiffer);
    }
    if p.kind.is_primary() {
        return Err(CheckRefusal::Primary);
    }
    Ok(s)
}
