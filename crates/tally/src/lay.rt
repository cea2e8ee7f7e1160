// The numbers of a tally laid out: 64 totals, 64 leasts, 4,096 counts.
ghost use Rattle.std.specs.Prelude.{◌≡◌, ◌+◌, ◌≤◌, length};
ghost use Rattle.limit.specs.Limit.{table_size};
ghost use Rattle.tally.specs.Layout.{laid, cells_size};
ghost use Rattle.tally.specs.Inner.{put_at};

use super::CELLS;
use limit::TABLE_SIZE;

// Copies a row of numbers to the place `from`.
fn put(cells: &mut [u32; CELLS], from: usize, row: &[u32])
    requires { from + length row.now ≤ cells_size }
    ensures { cells.new ≡ put_at from row.now cells.old }
{
    cells[from..from + row.len()].copy_from_slice(row);
}

// The totals, the leasts and the counts, one behind the other.
pub fn lay_out(totals: &[u32; 64], leasts: &[u32; 64], counts: &[u32; TABLE_SIZE]) -> [u32; CELLS]
    requires { (length totals.now ≡ 64) × (length leasts.now ≡ 64) × (length counts.now ≡ table_size) }
    ensures { result ≡ laid totals.now leasts.now counts.now }
{
    let mut cells = [0u32; CELLS];
    put(&mut cells, 0, totals);
    put(&mut cells, 64, leasts);
    put(&mut cells, 128, counts);
    cells
}
