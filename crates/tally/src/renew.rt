// The leasts when one total has changed. They are renewed where they lie: that of its node, of the node's helpand, and so on up the
// tree. A tally may hold anything, so the helpands need not be a tree here, and a count ends the way up.
ghost use Rattle.std.specs.Prelude.{◌≡◌, suc, ◌<◌};
ghost use Rattle.arrays.specs.Arrays.{at};
ghost use Rattle.tally.specs.Renew.{least_from, renewed};
ghost use Rattle.tally.specs.Inner.{Linking};

use super::CELLS;
use tree::links::Helpers;

// The least of node n, from those of its helpers.
fn least_from(cells: &[u32; CELLS], helpers: &Helpers, limit: u32, n: usize) -> u32
    requires { n < helpers.now.nodes }
    ensures { result ≡ least_from helpers.now.nodes (at helpers.now.helpands.now) limit cells.now n }
{
    let mut left = cells[n];
    let mut k = helpers.first(n);
    while k < helpers.nodes {
        left = left.saturating_sub(limit.saturating_sub(cells[64 + k]));
        k = helpers.next(k);
    }
    left
}

// Renews the leasts after the total of node `first` has changed. Where a least stays as it was, those above it do, too.
pub fn renew_from(helpers: &Helpers, limit: u32, first: usize, cells: &mut [u32; CELLS])
    requires { first < helpers.now.nodes }
    ensures { cells.new
        ≡ renewed helpers.now.nodes (at helpers.now.helpands.now) limit (suc helpers.now.nodes) first cells.old }
{
    let mut n = first;
    for _ in 0..=helpers.nodes {
        let least = least_from(cells, helpers, limit, n);
        if least == cells[64 + n] {
            return;
        }
        cells[64 + n] = least;
        let helpand = helpers.helpands[n] as usize;
        if helpand == n {
            return;
        }
        n = helpand;
    }
}

// The same for a caller that has the helpands and their links at hand, and no `Helpers`.
pub fn renew(
    helpands: &[u32; 64],
    links: &[usize; 128],
    nodes: usize,
    limit: u32,
    first: usize,
    cells: &mut [u32; CELLS],
)
    requires { (Linking nodes (at helpands.now) links.now) × (first < nodes) }
    ensures { cells.new ≡ renewed nodes (at helpands.now) limit (suc nodes) first cells.old }
{
    let helpers = Helpers::of(helpands, nodes);
    renew_from(&helpers, limit, first, cells);
}
