// Writes a table of counts as a sheet into a lent buffer.
ghost use Rattle.std.specs.Prelude.{◌≡◌, ◌+◌, ◌*◌, ◌≤◌, ◌<◌, length};
ghost use Rattle.limit.specs.Limit.{max_nodes};
ghost use Rattle.words.specs.Words.{put_word};
ghost use Rattle.words.specs.Buffer.{placed, written, writing};
ghost use Rattle.sheet.specs.Write.{filled_cells, sheet_bytes};

use limit::TABLE_SIZE;
use words::TooShort;

// How many cells of holders below n have a count: the sheet's E. Counted in 32 bits by the index, which the compiler turns into several
// at once; a chain that ends in `count` takes half as long again for the whole of *carry out*.
pub fn count_cells(table: &[u32; TABLE_SIZE], n: u32) -> u32
    requires { n ≤ max_nodes }
    ensures { result ≡ length (filled_cells n table.now) }
{
    let mut e = 0;
    for c in 0..64 * n as usize {
        if table[c] != 0 {
            e += 1;
        }
    }
    e
}

// Writes cell c and its count as entry i of a sheet with e entries.
fn put_entry(out: &mut [u8], e: usize, i: usize, c: u32, count: u32)
    requires { (i < e) × (4 * (3 + 2 * e) ≤ length out.old) }
    ensures { out.new ≡ put_word (put_word out.old (4 * (3 + i)) c) (4 * (3 + e + i)) count }
{
    words::put_word(out, 3 + i, c);
    words::put_word(out, 3 + e + i, count);
}

// Writes the sheet of n nodes with e entries into a buffer that is long enough.
pub fn put_sheet(out: &mut [u8], n: u32, t: u32, e: u32, table: &[u32; TABLE_SIZE])
    requires { (n ≤ max_nodes) × (e ≡ length (filled_cells n table.now)) × (4 * (3 + 2 * e) ≤ length out.old) }
    ensures { out.new ≡ placed (sheet_bytes n t table.now) out.old }
{
    words::put_head(out, n, t, e);
    let entries = e as usize;
    let mut i = 0;
    for c in 0..64 * n as usize {
        let count = table[c];
        if count != 0 {
            put_entry(out, entries, i, c as u32, count);
            i += 1;
        }
    }
}

// The same into any buffer: too short, it is left as it was.
#[tactic(auto, using(crate::proofs::Filled::sizes))]
pub fn write_sheet(
    out: &mut [u8],
    n: u32,
    t: u32,
    table: &[u32; TABLE_SIZE],
) -> Result<usize, TooShort>
    requires { n ≤ max_nodes }
    ensures answer { result ≡ writing (sheet_bytes n t table.now) out.old }
    ensures bytes { out.new ≡ written (sheet_bytes n t table.now) out.old }
{
    let e = count_cells(table, n);
    let size = 4 * (3 + 2 * e as usize);
    if out.len() < size {
        return Err(TooShort);
    }
    put_sheet(out, n, t, e, table);
    Ok(size)
}
