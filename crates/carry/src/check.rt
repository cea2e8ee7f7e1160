// The checks of *carry out* up to 42, which are those of every operation on "a sheet and moves that *carry out* would accept, buffer
// aside". 42 itself is tested where the sends are taken from the table, in `transfer::apply`.
ghost use Rattle.std.specs.Prelude.{◌≡◌};
ghost use Rattle.carry.specs.Checks.{check_number};
ghost use Rattle.carry.specs.declared.check.CheckRefusal.TheVariants.{Sheet as OfSheet, Moves as OfMoves};
ghost use Rattle.carry.specs.Inner.{PairRead};

use moves::{Moves, MovesRefusal};
use sheet::{Sheet, SheetRefusal};
use words::Refusal;

// Why a sheet and moves cannot be carried out into any buffer, in the order of the checks.
#[derive(Clone, Copy, Debug, PartialEq, Eq)]
pub enum CheckRefusal {
    Sheet(SheetRefusal),
    Moves(MovesRefusal),
    NodesDiffer,
    Sends,
}

impl From<SheetRefusal> for CheckRefusal {
    ghost from_gives = { λ r made. made ≡ OfSheet r };

    fn from(r: SheetRefusal) -> CheckRefusal {
        CheckRefusal::Sheet(r)
    }
}

impl From<MovesRefusal> for CheckRefusal {
    ghost from_gives = { λ r made. made ≡ OfMoves r };

    fn from(r: MovesRefusal) -> CheckRefusal {
        CheckRefusal::Moves(r)
    }
}

impl Refusal for CheckRefusal {
    ghost number_of = { check_number };

    fn number(self) -> u32 {
        match self {
            CheckRefusal::Sheet(r) => r.number(),
            CheckRefusal::Moves(r) => r.number(),
            CheckRefusal::NodesDiffer => 41,
            CheckRefusal::Sends => 42,
        }
    }
}

// Reads a sheet and moves of as many nodes: the checks up to 41.
pub fn read_pair(sheet: &[u8], moves: &[u8]) -> Result<(Sheet, Moves), CheckRefusal>
    ensures { PairRead sheet.now moves.now result }
{
    let s = sheet::read_sheet(sheet)?;
    let m = moves::read_moves(moves)?;
    if s.n != m.n {
        return Err(CheckRefusal::NodesDiffer);
    }
    Ok((s, m))
}
