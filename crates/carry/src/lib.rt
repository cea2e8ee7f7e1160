// *Carry out*: the sheet that follows a sheet and moves, written to a lent buffer. Any accepted moves will do, not only ours.
// The checks up to 42 stand in `check`.
#![tactic(auto)]

ghost use Rattle.std.specs.Prelude.{◌≡◌, length};
ghost use Rattle.carry.specs.Carry.{carry_answer, next_after, number_of, answer_of};
ghost use Rattle.carry.specs.Inner.{PairAccepted};
ghost use Rattle.carry.specs.declared.CarryRefusal.TheVariants.{Check, Buffer};

use check::CheckRefusal;
use moves::Moves;
use sheet::Sheet;
use words::{Refusal, TooShort};

pub mod check;

// Why carrying out is refused, in the order of the checks.
#[derive(Clone, Copy, Debug, PartialEq, Eq)]
pub enum CarryRefusal {
    Check(CheckRefusal),
    Buffer,
}

impl From<CheckRefusal> for CarryRefusal {
    ghost from_gives = { λ r made. made ≡ Check r };

    fn from(r: CheckRefusal) -> CarryRefusal {
        CarryRefusal::Check(r)
    }
}

impl From<TooShort> for CarryRefusal {
    ghost from_gives = { λ r made. made ≡ Buffer };

    fn from(_r: TooShort) -> CarryRefusal {
        CarryRefusal::Buffer
    }
}

impl Refusal for CarryRefusal {
    ghost number_of = { number_of };

    fn number(self) -> u32 {
        match self {
            CarryRefusal::Check(r) => r.number(),
            CarryRefusal::Buffer => 43,
        }
    }
}

// Carries out moves on a sheet, both read.
fn carry_read(
    sheet: &[u8],
    moves: &[u8],
    s: Sheet,
    m: Moves,
    next: &mut [u8],
) -> Result<u32, CarryRefusal>
    requires { PairAccepted sheet.now moves.now s m }
    ensures answer { answer_of result ≡ carry_answer sheet.now moves.now (length next.old) }
    ensures bytes { next.new ≡ next_after sheet.now moves.now next.old }
{
    let mut table = sheet::table::unpack(sheet, s.e as usize);
    if !transfer::apply::apply_moves(&mut table, moves, m.e as usize) {
        return Err(CarryRefusal::Check(CheckRefusal::Sends));
    }
    let size = sheet::write::write_sheet(next, s.n, s.t, &table)?;
    Ok(size as u32)
}

// *Carry out*.
pub fn carry_out(sheet: &[u8], moves: &[u8], next: &mut [u8]) -> Result<u32, CarryRefusal>
    ensures answer { answer_of result ≡ carry_answer sheet.now moves.now (length next.old) }
    ensures bytes { next.new ≡ next_after sheet.now moves.now next.old }
{
    let (s, m) = check::read_pair(sheet, moves)?;
    carry_read(sheet, moves, s, m, next)
}
