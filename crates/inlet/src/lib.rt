// *Join sheets*, request 2026-02: the resident sheet and the sheet of the particles that the gas inlet injects become one, written to a
// lent buffer.
#![tactic(auto)]

ghost use Rattle.std.specs.Prelude.{◌≡◌, ℕ, length};
ghost use Rattle.sheet.specs.Table.{table_of};
ghost use Rattle.inlet.specs.Join.{sum_of, join_answer, joined_after, number_of, answer_of};
ghost use Rattle.inlet.specs.Inner.{Addable, SheetsRead};
ghost use Rattle.inlet.specs.declared.JoinRefusal.TheVariants.{Sheet as OfSheet, Buffer};

use limit::TABLE_SIZE;
use sheet::{Sheet, SheetRefusal};
use words::{Refusal, TooShort};

// Why joining is refused: as a sheet is, the first before the second; their N or t differ; as a sheet whose counts come to too much;
// the buffer.
#[derive(Clone, Copy, Debug, PartialEq, Eq)]
pub enum JoinRefusal {
    Sheet(SheetRefusal),
    SheetsDiffer,
    Buffer,
}

impl From<SheetRefusal> for JoinRefusal {
    ghost from_gives = { λ r made. made ≡ OfSheet r };

    fn from(r: SheetRefusal) -> JoinRefusal {
        JoinRefusal::Sheet(r)
    }
}

impl From<TooShort> for JoinRefusal {
    ghost from_gives = { λ r made. made ≡ Buffer };

    fn from(_r: TooShort) -> JoinRefusal {
        JoinRefusal::Buffer
    }
}

impl Refusal for JoinRefusal {
    ghost number_of = { number_of };

    fn number(self) -> u32 {
        match self {
            JoinRefusal::Sheet(r) => r.number(),
            JoinRefusal::SheetsDiffer => 51,
            JoinRefusal::Buffer => 52,
        }
    }
}

// Adds each count of the e entries of s to its cell of a table, in place.
fn add_counts(table: &mut [u32; TABLE_SIZE], s: &[u8], e: usize)
    requires { (n : ℕ) × Addable table.old s.now n e }
    ensures { table.new ≡ sum_of table.old (table_of s.now e) }
{
    for i in 0..e {
        let c = words::word_number(s, 3 + i) as usize;
        table[c] += words::word_number(s, 3 + e + i);
    }
}

// Joins two sheets, both read.
#[tactic(auto, unfolding(crate::specs::Join::join_answer, crate::specs::Join::joined_sheet))]
fn join_read(
    first: &[u8],
    second: &[u8],
    a: Sheet,
    b: Sheet,
    out: &mut [u8],
) -> Result<u32, JoinRefusal>
    requires { SheetsRead first.now second.now a b }
    ensures answer { answer_of result ≡ join_answer first.now second.now (length out.old) }
    ensures bytes { out.new ≡ joined_after first.now second.now out.old }
{
    if a.n != b.n || a.t != b.t {
        return Err(JoinRefusal::SheetsDiffer);
    }
    if limit::MAX_TOTAL < a.p + b.p {
        return Err(JoinRefusal::Sheet(SheetRefusal::Count));
    }
    let mut table = sheet::table::unpack(first, a.e as usize);
    add_counts(&mut table, second, b.e as usize);
    let size = sheet::write::write_sheet(out, a.n, a.t, &table)?;
    Ok(size as u32)
}

// *Join sheets*.
#[tactic(auto, unfolding(crate::specs::Join::join_answer))]
pub fn join_sheets(first: &[u8], second: &[u8], out: &mut [u8]) -> Result<u32, JoinRefusal>
    ensures answer { answer_of result ≡ join_answer first.now second.now (length out.old) }
    ensures bytes { out.new ≡ joined_after first.now second.now out.old }
{
    let a = sheet::read_sheet(first)?;
    let b = sheet::read_sheet(second)?;
    join_read(first, second, a, b, out)
}
