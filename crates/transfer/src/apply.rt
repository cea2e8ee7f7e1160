// Document 01, *Carry out*: "42, some cell sends in all more than the old sheet gives it", and the table that follows, "each cell
// less what it sends, plus what it receives".
ghost use Rattle.std.specs.Prelude.{◌≡◌, true, ◌*◌, ◌≤◌, ◌<◌};
ghost use Rattle.fold.specs.Sum.{sum};
ghost use Rattle.arrays.specs.Arrays.{at};
ghost use Rattle.limit.specs.Limit.{max_total, table_size};
ghost use Rattle.moves.specs.Moves.{routes_of, counts_of};
ghost use Rattle.transfer.specs.Apply.{from_cell, into_cell, sends_within, less_sends, plus_receipts, carried};
ghost use Rattle.transfer.specs.Inner.{Ready, Room};

use limit::TABLE_SIZE;
use moves::route;

// The cell that a route leads from.
fn from_cell(route: u32) -> usize
    ensures cell { result ≡ from_cell route }
    ensures inside { route < 64 * table_size → result < table_size }
{
    sheet::table::cell(
        route::sender(route) as usize,
        route::subdomain(route) as usize,
    )
}

// The cell that a route leads to.
fn into_cell(route: u32) -> usize
    ensures cell { result ≡ into_cell route }
    ensures inside { route < 64 * table_size → result < table_size }
{
    sheet::table::cell(
        route::receiver(route) as usize,
        route::subdomain(route) as usize,
    )
}

// Takes from each cell, in place, what it sends under the record `moves` of e entries, and says whether every cell had as much; it stops
// at the first that had not, and the table is of no more use then. What arrives plays no part. Cells only become smaller here, so that
// nothing can wrap, however much the counts come to.
pub fn subtract_sends(table: &mut [u32; TABLE_SIZE], moves: &[u8], e: usize) -> bool
    requires { Ready table.old moves.now e }
    ensures answer { result ≡ sends_within table.old (routes_of moves.now e) (counts_of moves.now e) }
    ensures left { result ≡ true
        → table.new ≡ less_sends table.old (routes_of moves.now e) (counts_of moves.now e) }
{
    for i in 0..e {
        let from = from_cell(words::word_number(moves, 2 + i));
        let sent = words::word_number(moves, 2 + e + i);
        if table[from] < sent {
            return false;
        }
        table[from] -= sent;
    }
    true
}

// Adds to each cell, in place, what it receives.
pub fn add_receipts(table: &mut [u32; TABLE_SIZE], moves: &[u8], e: usize)
    requires { Ready table.old moves.now e × Room table.old moves.now e }
    ensures { table.new ≡ plus_receipts table.old (routes_of moves.now e) (counts_of moves.now e) }
{
    for i in 0..e {
        let into = into_cell(words::word_number(moves, 2 + i));
        let received = words::word_number(moves, 2 + e + i);
        table[into] += received;
    }
}

// Applies moves to a table, in place, and says whether no cell sends in all more than it has; if one does, the table is of no more use.
pub fn apply_moves(table: &mut [u32; TABLE_SIZE], moves: &[u8], e: usize) -> bool
    requires { Ready table.old moves.now e × (sum table_size (at table.old) ≤ max_total) }
    ensures answer { result ≡ sends_within table.old (routes_of moves.now e) (counts_of moves.now e) }
    ensures next { result ≡ true
        → table.new ≡ carried table.old (routes_of moves.now e) (counts_of moves.now e) }
{
    if !subtract_sends(table, moves, e) {
        return false;
    }
    add_receipts(table, moves, e);
    true
}
