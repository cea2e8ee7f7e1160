// The shape of a plan's helpands, and its shares.
ghost use Rattle.std.specs.Prelude.{◌≡◌, true, ◌≤◌};
ghost use Rattle.fold.specs.All.{all};
ghost use Rattle.limit.specs.Limit.{max_nodes};
ghost use Rattle.plan.specs.Tree.{helpands_below, roots, reaches, shape_fine, shares_fine};
ghost use Rattle.plan.specs.Inner.{checked_of};
ghost use Rattle.arrays.specs.Arrays.{at};

use super::PlanRefusal;

// Whether each helpand of nodes below n is a node below n.
pub fn helpands_below(helpands: [u32; 64], n: u32) -> bool
    requires { (1 ≤ n) × (n ≤ max_nodes) }
    ensures { result ≡ helpands_below n (at helpands) }
{
    arrays::all_at_most(helpands, n as usize, n - 1)
}

// How many of the nodes are roots.
fn count_roots(helpands: [u32; 64], nodes: usize) -> usize
    requires { nodes ≤ max_nodes }
    ensures { result ≡ roots nodes (at helpands) }
{
    let mut count = 0;
    for k in 0..nodes {
        if helpands[k] as usize == k {
            count += 1;
        }
    }
    count
}

// Refusal 17 at the first node whose chain of helpands fails to reach a root within as many steps as there are nodes.
fn check_chains(helpands: [u32; 64], nodes: usize) -> Result<(), PlanRefusal>
    requires { (nodes ≤ max_nodes) × (helpands_below nodes (at helpands) ≡ true) }
    ensures { result ≡ checked_of (all nodes (reaches (at helpands) nodes)) }
{
    let mut found = Ok(());
    'nodes: for node in 0..nodes {
        let mut here = node;
        let mut left = nodes;
        'steps: loop {
            let next = helpands[here] as usize;
            if next == here {
                break 'steps;
            }
            if left == 0 {
                found = Err(PlanRefusal::Shape);
                break 'nodes;
            }
            here = next;
            left -= 1;
        }
    }
    found
}

// Refusal 17 where the shape is not that of the kind: kind 0 has only roots, kinds 1 and 2 have one root, which every chain
// reaches.
pub fn check_shape(helpands: [u32; 64], nodes: usize, kind: u32) -> Result<(), PlanRefusal>
    requires { (nodes ≤ max_nodes) × (helpands_below nodes (at helpands) ≡ true) }
    ensures { result ≡ checked_of (shape_fine nodes kind (at helpands)) }
{
    let roots = count_roots(helpands, nodes);
    if kind == 0 {
        if roots == nodes {
            return Ok(());
        }
        return Err(PlanRefusal::Shape);
    }
    if roots != 1 {
        return Err(PlanRefusal::Shape);
    }
    check_chains(helpands, nodes)
}

// Whether each share is at most the limit, and 0 at a root.
pub fn shares_fine(helpands: [u32; 64], shares: [u32; 64], nodes: usize, limit: u32) -> bool
    requires { nodes ≤ max_nodes }
    ensures { result ≡ shares_fine nodes limit (at helpands) (at shares) }
{
    for k in 0..nodes {
        let share = shares[k];
        if limit < share {
            return false;
        }
        if helpands[k] as usize == k && share != 0 {
            return false;
        }
    }
    true
}
