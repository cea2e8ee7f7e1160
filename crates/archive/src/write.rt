// *Write archive*: a sheet's counts, each at its cell's position, in a lent buffer.
ghost use Rattle.std.specs.Prelude.{◌≡◌, ◌∷◌, ◌+◌, ◌≤◌, length};
ghost use Rattle.words.specs.Words.{encode};
ghost use Rattle.words.specs.Buffer.{placed};
ghost use Rattle.sheet.specs.Sheet.{read_sheet, accepted};
ghost use Rattle.sheet.specs.Table.{table_of};
ghost use Rattle.sheet.specs.Inner.{Unpackable};
ghost use Rattle.archive.specs.Archive.{archive_size, no_counts, archive_bytes, write_answer, archive_after, write_number, writing_of};
ghost use Rattle.archive.specs.declared.write.WriteRefusal.TheVariants.{Sheet as OfSheet};

use crate::{ARCHIVE_SIZE, order};
use sheet::{Sheet, SheetRefusal};
use words::{Refusal, WrittenAnswer};

// Why no archive is written: as the sheet is refused; the buffer.
#[derive(Clone, Copy, Debug, PartialEq, Eq)]
pub enum WriteRefusal {
    Sheet(SheetRefusal),
    Buffer,
}

impl From<SheetRefusal> for WriteRefusal {
    ghost from_gives = { λ r made. made ≡ OfSheet r };

    fn from(r: SheetRefusal) -> WriteRefusal {
        WriteRefusal::Sheet(r)
    }
}

impl Refusal for WriteRefusal {
    ghost number_of = { write_number };

    fn number(self) -> u32 {
        match self {
            WriteRefusal::Sheet(r) => r.number(),
            WriteRefusal::Buffer => 56,
        }
    }
}

// The archive was written. Its length is that of all archives.
#[derive(Clone, Copy, Debug, PartialEq, Eq)]
pub struct Archived;

// Writes an archive without particles: N, t and 4,096 counts of 0.
fn put_empty(out: &mut [u8], n: u32, t: u32)
    requires { archive_size ≤ length out.old }
    ensures { out.new ≡ placed (encode (n ∷ t ∷ no_counts)) out.old }
{
    words::put_word(out, 0, n);
    words::put_word(out, 1, t);
    out[8..ARCHIVE_SIZE].fill(0);
}

// Writes the archive of the sheet s, of e entries, into a buffer that is long enough. All counts are 0 at first, so that the cells that
// the sheet does not name need not be looked for.
fn put_archive(out: &mut [u8], s: &[u8], n: u32, t: u32, e: usize)
    requires { Unpackable s.now n e × (archive_size ≤ length out.old) }
    ensures { out.new ≡ placed (archive_bytes n t (table_of s.now e)) out.old }
{
    put_empty(out, n, t);
    let positions = order::positions();
    for i in 0..e {
        let c = words::word_number(s, 3 + i) as usize;
        let p = usize::from(positions[c]);
        words::put_word(out, 2 + p, words::word_number(s, 3 + e + i));
    }
}

// Writes the archive of a sheet that was read.
#[tactic(auto, unfolding(crate::specs::Archive::write_answer, crate::specs::Archive::archive_of))]
fn write_read(s: &[u8], h: Sheet, out: &mut [u8]) -> Result<Archived, WriteRefusal>
    requires { accepted h.n h.t h.e h.p h.limit ≡ read_sheet s.now }
    ensures answer { writing_of result ≡ write_answer s.now (length out.old) }
    ensures bytes { out.new ≡ archive_after s.now out.old }
{
    if out.len() < ARCHIVE_SIZE {
        return Err(WriteRefusal::Buffer);
    }
    put_archive(out, s, h.n, h.t, h.e as usize);
    Ok(Archived)
}

// *Write archive*.
pub fn write_archive(sheet: &[u8], archive: &mut [u8]) -> Result<Archived, WriteRefusal>
    ensures answer { writing_of result ≡ write_answer sheet.now (length archive.old) }
    ensures bytes { archive.new ≡ archive_after sheet.now archive.old }
{
    let h = sheet::read_sheet(sheet)?;
    write_read(sheet, h, archive)
}

// A writing in document 02's numbers.
pub fn answer(w: Result<Archived, WriteRefusal>) -> WrittenAnswer
    ensures { result ≡ writing_of w }
{
    match w {
        Ok(_) => WrittenAnswer {
            refusal: 0,
            bytes: ARCHIVE_SIZE as u32,
        },
        Err(r) => WrittenAnswer {
            refusal: r.number(),
            bytes: 0,
        },
    }
}
