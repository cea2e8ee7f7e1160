// *Weigh*: the leasts of a plan's tree under a sheet's limit, written to a lent buffer, and whether the tree holds.
// The checks up to 24 stand in `check`, too, for the opening of a tally. They are made here in their places.
#![tactic(auto)]

ghost use Rattle.std.specs.Prelude.{◌≡◌, ℕ, ◌≤◌, length};
ghost use Rattle.limit.specs.Limit.{max_nodes};
ghost use Rattle.arrays.specs.Arrays.{at, tabulate};
ghost use Rattle.plan.specs.Tree.{Tree};
ghost use Rattle.tree.specs.Least.{least};
ghost use Rattle.weigh.specs.Weigh.{least_in, weigh_answer, weigh_bytes, number_of, answer_in, answer_of};
ghost use Rattle.weigh.specs.Inner.{Weighable};
ghost use Rattle.weigh.specs.declared.WeighRefusal.TheVariants.{Check};
ghost use Rattle.weigh.specs.declared.check.CheckRefusal.TheVariants.{Sheet as OfSheet, Plan as OfPlan};

use check::CheckRefusal;
use plan::PlanRefusal;
use sheet::{Sheet, SheetRefusal};
use tree::links::Helpers;
use words::Refusal;

pub mod check;

// Why weighing is refused, in the order of the checks.
#[derive(Clone, Copy, Debug, PartialEq, Eq)]
pub enum WeighRefusal {
    Check(CheckRefusal),
    Buffer,
}

impl From<CheckRefusal> for WeighRefusal {
    ghost from_gives = { λ r made. made ≡ Check r };

    fn from(r: CheckRefusal) -> WeighRefusal {
        WeighRefusal::Check(r)
    }
}

impl From<SheetRefusal> for WeighRefusal {
    ghost from_gives = { λ r made. made ≡ Check (OfSheet r) };

    fn from(r: SheetRefusal) -> WeighRefusal {
        WeighRefusal::Check(CheckRefusal::Sheet(r))
    }
}

impl From<PlanRefusal> for WeighRefusal {
    ghost from_gives = { λ r made. made ≡ Check (OfPlan r) };

    fn from(r: PlanRefusal) -> WeighRefusal {
        WeighRefusal::Check(CheckRefusal::Plan(r))
    }
}

impl Refusal for WeighRefusal {
    ghost number_of = { number_of };

    fn number(self) -> u32 {
        match self {
            WeighRefusal::Check(r) => r.number(),
            WeighRefusal::Buffer => 25,
        }
    }
}

// The answer in document 01's numbers: 0 or the refusal's, and whether the tree holds, as 1 or 0.
#[repr(C)]
#[derive(Clone, Copy)]
pub struct WeighAnswer {
    pub refusal: u32,
    pub holds: u32,
}

// Whether a tree holds, or why nobody says, in the papers' numbers.
pub fn answer<R: Refusal>(weighed: Result<bool, R>) -> WeighAnswer
    ensures { result ≡ answer_in R.number_of weighed }
{
    match weighed {
        Ok(holds) => WeighAnswer {
            refusal: 0,
            holds: holds as u32,
        },
        Err(r) => WeighAnswer {
            refusal: r.number(),
            holds: 0,
        },
    }
}

// The leasts of a tree, from its helpands and the totals.
pub fn tree_leasts(totals: [u32; 64], helpands: [u32; 64], nodes: usize, limit: u32) -> [u32; 64]
    requires { (nodes ≤ max_nodes) × ((r : ℕ) × Tree nodes (at helpands) r) }
    ensures { result ≡ tabulate nodes (least nodes (at helpands) (at totals) limit) }
{
    let root = tree::least::find_root(helpands, nodes);
    let helpers = Helpers::of(&helpands, nodes);
    helpers.leasts(totals, root, limit)
}

// The leasts of the plan's tree, for a sheet and a plan that are accepted.
fn leasts_of(sheet: &[u8], plan: &[u8], s: Sheet) -> [u32; 64]
    requires { Weighable sheet.now plan.now s }
    ensures { result ≡ tabulate s.n (least_in sheet.now plan.now) }
{
    let nodes = s.n as usize;
    let table = sheet::table::unpack(sheet, s.e as usize);
    let totals = sheet::totals::totals(&table, nodes);
    let helpands = words::words_64(plan, 3, nodes);
    tree_leasts(totals, helpands, nodes, s.limit)
}

// Weighs a sheet and a plan that are accepted.
fn weigh_read(sheet: &[u8], plan: &[u8], s: Sheet, least: &mut [u8]) -> Result<bool, WeighRefusal>
    requires { Weighable sheet.now plan.now s }
    ensures answer { answer_of result ≡ weigh_answer sheet.now plan.now (length least.old) }
    ensures bytes { least.new ≡ weigh_bytes sheet.now plan.now least.old }
{
    let nodes = s.n as usize;
    if least.len() < 4 * nodes {
        return Err(WeighRefusal::Buffer);
    }
    let leasts = leasts_of(sheet, plan, s);
    words::put_words(least, 0, &leasts[..nodes]);
    Ok(tree::least::holds(leasts, nodes, s.limit))
}

// *Weigh*. The leasts are written also when the tree does not hold.
pub fn weigh(sheet: &[u8], plan: &[u8], least: &mut [u8]) -> Result<bool, WeighRefusal>
    ensures answer { answer_of result ≡ weigh_answer sheet.now plan.now (length least.old) }
    ensures bytes { least.new ≡ weigh_bytes sheet.now plan.now least.old }
{
    let s = sheet::read_sheet(sheet)?;
    let p = plan::read_plan(plan)?;
    if s.n != p.n {
        return Err(WeighRefusal::Check(CheckRefusal::NodesDiffer));
    }
    if p.kind.is_primary() {
        return Err(WeighRefusal::Check(CheckRefusal::Primary));
    }
    weigh_read(sheet, plan, s, least)
}
