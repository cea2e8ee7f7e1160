// Document 01, 'Deciding': the plan of a step is primary, or the old tree kept, or a tree rebuilt.
#![tactic(auto)]

ghost use Rattle.std.specs.Prelude.{◌≡◌, true, ℕ, ◌≤◌, IfSome, is_some, unwrap_or};
ghost use Rattle.fold.specs.Sum.{sum};
ghost use Rattle.limit.specs.Limit.{max_nodes, max_total};
ghost use Rattle.plan.specs.Tree.{helpands_below, Tree};
ghost use Rattle.sheet.specs.Totals.{totals_of};
ghost use Rattle.decide.specs.Decide.{own_numbers, primary_plan, rebuilt_plan, tree_plan, decided};
ghost use Rattle.arrays.specs.Arrays.{at};

use limit::TABLE_SIZE;
use plan::Kind;
use rebuild::Rebuilt;
use tree::links::Helpers;

// A plan without its N and limit.
#[derive(Clone, Copy)]
pub struct Decision {
    pub kind: Kind,
    pub helpands: [u32; 64],
    pub shares: [u32; 64],
}

// Each node's own number: the helpands of a plan of kind 0, and of an old plan without a tree.
pub fn own_numbers(nodes: usize) -> [u32; 64]
    requires { nodes ≤ max_nodes }
    ensures { result ≡ own_numbers nodes }
{
    let mut out = [0u32; 64];
    for k in 0..nodes {
        out[k] = k as u32;
    }
    out
}

// The plan where every node is a root.
fn primary_plan(nodes: usize) -> Decision
    requires { nodes ≤ max_nodes }
    ensures { result ≡ primary_plan nodes }
{
    Decision {
        kind: Kind::Primary,
        helpands: own_numbers(nodes),
        shares: [0u32; 64],
    }
}

// The tree rebuilt.
fn rebuilt_plan(totals: [u32; 64], old: [u32; 64], nodes: usize, p: u32) -> Decision
    requires { (1 ≤ nodes) × (nodes ≤ max_nodes) × (helpands_below nodes (at old) ≡ true) × (sum nodes (at totals) ≡ p) × (p ≤ max_total) }
    ensures { result ≡ rebuilt_plan nodes p totals old }
{
    let Rebuilt { helpands, shares } = rebuild::rebuild(totals, old, nodes, p);
    Decision {
        kind: Kind::Rebuilt,
        helpands,
        shares,
    }
}

// The old tree kept if it holds, and rebuilt otherwise.
fn weighed_plan(
    table: &[u32; TABLE_SIZE],
    totals: [u32; 64],
    old: [u32; 64],
    nodes: usize,
    p: u32,
    limit: u32,
) -> Decision
    requires { (1 ≤ nodes) × (nodes ≤ max_nodes) × (totals ≡ totals_of nodes table.now) × (sum nodes (at totals) ≡ p) × (p ≤ max_total)
        × ((r : ℕ) × Tree nodes (at old) r) }
    ensures { result ≡ tree_plan nodes p limit table.now totals true old }
{
    let root = tree::least::find_root(old, nodes);
    let helpers = Helpers::of(&old, nodes);
    let leasts = helpers.leasts(totals, root, limit);
    if tree::least::holds(leasts, nodes, limit) {
        return Decision {
            kind: Kind::Kept,
            helpands: old,
            shares: shares::kept_shares(table, totals, leasts, &helpers, root, limit),
        };
    }
    rebuilt_plan(totals, old, nodes, p)
}

// The plan of a step with these totals, which add up to p. `tree` says whether there is an old tree.
pub fn decide(
    table: &[u32; TABLE_SIZE],
    totals: [u32; 64],
    tree: bool,
    old: [u32; 64],
    nodes: usize,
    p: u32,
    limit: u32,
) -> Decision
    requires { (1 ≤ nodes) × (nodes ≤ max_nodes) × (totals ≡ totals_of nodes table.now) × (sum nodes (at totals) ≡ p) × (p ≤ max_total)
        × (helpands_below nodes (at old) ≡ true) × (tree ≡ true → (r : ℕ) × Tree nodes (at old) r) }
    ensures { result ≡ decided nodes p limit table.now totals tree old }
{
    if tree::is_primary(totals, nodes, limit) {
        primary_plan(nodes)
    } else if tree {
        weighed_plan(table, totals, old, nodes, p, limit)
    } else {
        rebuilt_plan(totals, old, nodes, p)
    }
}

// The same, where `old` has the helpands of the old tree, if there is one. Without one each node is its own old helpand.
pub fn decide_step(
    table: &[u32; TABLE_SIZE],
    totals: [u32; 64],
    old: Option<[u32; 64]>,
    nodes: usize,
    p: u32,
    limit: u32,
) -> Decision
    requires { (1 ≤ nodes) × (nodes ≤ max_nodes) × (totals ≡ totals_of nodes table.now) × (sum nodes (at totals) ≡ p) × (p ≤ max_total)
        × IfSome old (λ h. (r : ℕ) × Tree nodes (at h) r) }
    ensures { result ≡ decided nodes p limit table.now totals (is_some old) (unwrap_or old (own_numbers nodes)) }
{
    match old {
        Some(helpands) => decide(table, totals, true, helpands, nodes, p, limit),
        None => decide(table, totals, false, own_numbers(nodes), nodes, p, limit),
    }
}
