// Weighing a tree of helpands. "What a helper can spare is L less its least, or 0 if its least is above L. An owner's least is its
// count less what all its helpers can spare, and never below 0. The tree holds if no least is above L." Least and spare are document
// 01's words.
ghost use Rattle.std.specs.Prelude.{◌≡◌, ℕ, ◌-◌, ◌≤◌, ◌<◌, leb};
ghost use Rattle.fold.specs.All.{all};
ghost use Rattle.limit.specs.Limit.{max_nodes};
ghost use Rattle.plan.specs.Tree.{Tree};
ghost use Rattle.arrays.specs.Arrays.{at, tabulate};
ghost use Rattle.tree.specs.Least.{least};
ghost use Rattle.tree.specs.Links.{Linked};
ghost use Rattle.tree.specs.Inner.{Shallow, Descended};

use super::links::Helpers;

// The root of a tree: the node that is its own helpand.
pub fn find_root(helpands: [u32; 64], nodes: usize) -> usize
    requires { (nodes ≤ max_nodes) × ((r : ℕ) × Tree nodes (at helpands) r) }
    ensures { Tree nodes (at helpands) result }
{
    let mut node = 0;
    while helpands[node] as usize != node {
        node += 1;
    }
    node
}

// The least of node n. It is noted, and so are those of all nodes below n, in the array that is lent down the tree, so that one pass
// finds them all. No tree is so deep that the remaining depth is used up.
#[cycle(least_spare)]
fn least(
    depth: usize,
    n: usize,
    totals: &[u32; 64],
    helpers: &Helpers,
    limit: u32,
    leasts: &mut [u32; 64],
) -> u32
    requires { ((r : ℕ) × Tree helpers.now.nodes (at helpers.now.helpands.now) r) × (n < helpers.now.nodes)
        × (Shallow helpers.now.nodes (at helpers.now.helpands.now) depth n) }
    ensures { (result ≡ least helpers.now.nodes (at helpers.now.helpands.now) (at totals.now) limit n)
        × Descended helpers.now.nodes (at helpers.now.helpands.now)
        (least helpers.now.nodes (at helpers.now.helpands.now) (at totals.now) limit)
        n leasts.old leasts.new }
{
    if depth == 0 {
        return 0;
    }
    let mut left = totals[n];
    let mut k = helpers.first(n);
    while k < helpers.nodes {
        let spared = spare(depth - 1, k, totals, helpers, limit, leasts);
        left = left.saturating_sub(spared);
        k = helpers.next(k);
    }
    leasts[n] = left;
    left
}

// What helper n can spare.
#[cycle(least_spare)]
fn spare(
    depth: usize,
    n: usize,
    totals: &[u32; 64],
    helpers: &Helpers,
    limit: u32,
    leasts: &mut [u32; 64],
) -> u32
    requires { ((r : ℕ) × Tree helpers.now.nodes (at helpers.now.helpands.now) r) × (n < helpers.now.nodes)
        × (Shallow helpers.now.nodes (at helpers.now.helpands.now) depth n) }
    ensures { (result ≡ limit - least helpers.now.nodes (at helpers.now.helpands.now) (at totals.now) limit n)
        × Descended helpers.now.nodes (at helpers.now.helpands.now)
        (least helpers.now.nodes (at helpers.now.helpands.now) (at totals.now) limit)
        n leasts.old leasts.new }
{
    let own = least(depth, n, totals, helpers, limit, leasts);
    limit.saturating_sub(own)
}

impl<'a> Helpers<'a> {
    // The leasts of all nodes of a tree.
    pub fn leasts(&self, totals: [u32; 64], root: usize, limit: u32) -> [u32; 64]
        requires { Tree self.now.nodes (at self.now.helpands.now) root }
        ensures { result ≡ tabulate self.now.nodes (least self.now.nodes (at self.now.helpands.now) (at totals) limit) }
    {
        let mut out = [0u32; 64];
        least(self.nodes + 1, root, &totals, self, limit, &mut out);
        out
    }
}

// The same for a caller that has the helpands and their links at hand, and no `Helpers`.
pub fn leasts(
    totals: [u32; 64],
    helpands: [u32; 64],
    links: &[usize; 128],
    nodes: usize,
    root: usize,
    limit: u32,
) -> [u32; 64]
    requires { (nodes ≤ max_nodes) × (Tree nodes (at helpands) root) × (Linked nodes (at helpands) links.now) }
    ensures { result ≡ tabulate nodes (least nodes (at helpands) (at totals) limit) }
{
    let helpers = Helpers::of(&helpands, nodes);
    helpers.leasts(totals, root, limit)
}

// "The tree holds if no least is above L."
pub fn holds(leasts: [u32; 64], nodes: usize, limit: u32) -> bool
    requires { nodes ≤ max_nodes }
    ensures { result ≡ all nodes (λ n. leb (at leasts n) limit) }
{
    arrays::all_at_most(leasts, nodes, limit)
}
