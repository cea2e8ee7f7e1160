// *Read archive*: the sheet of an archive's counts, in a lent buffer.
ghost use Rattle.std.specs.Prelude.{◌≡◌, ◌≤◌, ◌<◌, ◌^◌, ◌||◌, eqb, length};
ghost use Rattle.fold.specs.Sum.{sum};
ghost use Rattle.arrays.specs.Arrays.{at};
ghost use Rattle.limit.specs.Limit.{table_size};
ghost use Rattle.words.specs.Buffer.{after_call};
ghost use Rattle.sheet.specs.Sheet.{cell_fine};
ghost use Rattle.archive.specs.ZOrder.{Positions};
ghost use Rattle.archive.specs.Archive.{archive_size, table_from, counts_fine, sheet_from, counts_answer, read_answer, sheet_after, read_number, reading_of};
ghost use Rattle.archive.specs.Inner.{HeadRead};
ghost use Rattle.archive.specs.declared.read.ReadRefusal.TheVariants.{Buffer};

use crate::{ARCHIVE_SIZE, order};
use limit::TABLE_SIZE;
use words::{Refusal, TooShort};

// Why an archive is refused, in the order of the checks.
#[derive(Clone, Copy, Debug, PartialEq, Eq)]
pub enum ReadRefusal {
    Length,
    Nodes,
    Tolerance,
    Count,
    Buffer,
}

impl From<TooShort> for ReadRefusal {
    ghost from_gives = { λ r made. made ≡ Buffer };

    fn from(_r: TooShort) -> ReadRefusal {
        ReadRefusal::Buffer
    }
}

impl Refusal for ReadRefusal {
    ghost number_of = { read_number };

    fn number(self) -> u32 {
        match self {
            ReadRefusal::Length => 54,
            ReadRefusal::Nodes => 2,
            ReadRefusal::Tolerance => 3,
            ReadRefusal::Count => 55,
            ReadRefusal::Buffer => 56,
        }
    }
}

// The table of an archive's counts, each read at its cell's position. The positions are lent: with the constant laid out in here, the
// compiler would leave this a function of its own, and copy the table that it gives.
fn unpack(a: &[u8], positions: &[u16; TABLE_SIZE]) -> [u32; TABLE_SIZE]
    requires { (archive_size ≤ length a.now) × Positions positions.now }
    ensures { result ≡ table_from a.now }
{
    let mut table = [0u32; TABLE_SIZE];
    for (c, p) in positions.iter().enumerate() {
        table[c] = words::word_number(a, 2 + usize::from(*p));
    }
    table
}

// Whether this count may stand at cell c: one above 0 stands where both nodes are below n.
fn count_fine(n: u32, c: u32, count: u32) -> bool
    ensures { result ≡ (cell_fine n c || eqb count 0) }
{
    count == 0 || sheet::cell_fine(n, c)
}

// Whether each count may stand at its cell.
fn counts_fine(table: &[u32; TABLE_SIZE], n: u32) -> bool
    ensures { result ≡ counts_fine n table.now }
{
    for (c, count) in table.iter().enumerate() {
        if !count_fine(n, c as u32, *count) {
            return false;
        }
    }
    true
}

// The sum of all counts: 4,096 of them take more than 32 bits.
fn sum_counts(table: &[u32; TABLE_SIZE]) -> u64
    ensures { result ≡ sum table_size (at table.now) }
{
    table.iter().map(|x| u64::from(*x)).sum()
}

// Writes the sheet of an archive whose N and t are right.
#[tactic(auto, unfolding(crate::specs::Archive::counts_answer, crate::specs::Archive::sheet_from))]
fn read_counts(a: &[u8], n: u32, t: u32, out: &mut [u8]) -> Result<u32, ReadRefusal>
    requires { HeadRead a.now n t }
    ensures answer { reading_of result ≡ counts_answer a.now (length out.old) }
    ensures bytes { out.new
        ≡ after_call (counts_answer a.now (length out.old)).refusal (sheet_from a.now) out.old }
{
    let positions = order::positions();
    let table = unpack(a, &positions);
    if !counts_fine(&table, n) {
        return Err(ReadRefusal::Count);
    }
    if u64::from(limit::MAX_TOTAL) < sum_counts(&table) {
        return Err(ReadRefusal::Count);
    }
    let size = sheet::write::write_sheet(out, n, t, &table)?;
    Ok(size as u32)
}

// *Read archive*.
#[tactic(auto, unfolding(crate::specs::Archive::read_answer))]
pub fn read_archive(archive: &[u8], sheet: &mut [u8]) -> Result<u32, ReadRefusal>
    ensures answer { reading_of result ≡ read_answer archive.now (length sheet.old) }
    ensures bytes { sheet.new ≡ sheet_after archive.now sheet.old }
{
    if archive.len() != ARCHIVE_SIZE {
        return Err(ReadRefusal::Length);
    }
    let n = words::word_number(archive, 0);
    let t = words::word_number(archive, 1);
    if !limit::one_to(limit::MAX_NODES, n) {
        return Err(ReadRefusal::Nodes);
    }
    if !limit::one_to(limit::MAX_TOLERANCE, t) {
        return Err(ReadRefusal::Tolerance);
    }
    read_counts(archive, n, t, sheet)
}
