// "Pn is the sum of all counts for subdomain n, whoever holds them."
ghost use Rattle.std.specs.Prelude.{◌≡◌, ◌+◌, ◌≤◌, ◌<◌};
ghost use Rattle.fold.specs.Sum.{sum};
ghost use Rattle.arrays.specs.Arrays.{at, tabulate};
ghost use Rattle.limit.specs.Limit.{max_nodes, max_total, table_size};
ghost use Rattle.sheet.specs.Totals.{total_of, totals_of};

use limit::TABLE_SIZE;

// Adds what `holder` has to the totals of what the holders below it have.
fn add_row(totals: &mut [u32; 64], table: &[u32; TABLE_SIZE], holder: usize, nodes: usize)
    requires { (nodes ≤ max_nodes) × (holder < nodes) × (sum table_size (at table.now) ≤ max_total)
        × (totals.old ≡ tabulate nodes (total_of holder table.now)) }
    ensures { totals.new ≡ tabulate nodes (total_of (holder + 1) table.now) }
{
    for n in 0..nodes {
        totals[n] += table[64 * holder + n];
    }
}

// The totals of all subdomains, in one pass over the table, as it lies in memory.
// No total is above the sum of the table, so none wraps.
pub fn totals(table: &[u32; TABLE_SIZE], nodes: usize) -> [u32; 64]
    requires { (nodes ≤ max_nodes) × (sum table_size (at table.now) ≤ max_total) }
    ensures { result ≡ totals_of nodes table.now }
{
    let mut out = [0u32; 64];
    for holder in 0..nodes {
        add_row(&mut out, table, holder, nodes);
    }
    out
}
