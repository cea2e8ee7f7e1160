// Document 01, 'Rebuilding': a new helper tree and its shares, with every load equal to its target. In a turn node l helps node g, as
// the document names them. The two groups that l and g are looked for in stand in `scan`.
#![tactic(auto)]

ghost use Rattle.std.specs.Prelude.{◌≡◌, true, ◌≤◌, ◌<◌};
ghost use Rattle.fold.specs.Sum.{sum};
ghost use Rattle.limit.specs.Limit.{max_nodes, max_total};
ghost use Rattle.plan.specs.Tree.{helpands_below};
ghost use Rattle.rebuild.specs.Target.{targets_of};
ghost use Rattle.rebuild.specs.Rebuild.{turn_of, finish_of, rebuilt_of};
ghost use Rattle.arrays.specs.Arrays.{at};

pub mod scan;

// The state of a rebuilding. Document 01 calls the node that another helps its helpand, and what the helper holds of the helpand's
// subdomain its share. Both count once a node is finished.
#[derive(Drop)]
pub struct Balance {
    pub loads: [u32; 64],
    pub targets: [u32; 64],
    pub finished: [bool; 64],
    pub helpands: [u32; 64],
    pub shares: [u32; 64],
}

// The new tree and its shares.
#[derive(Drop)]
pub struct Rebuilt {
    pub helpands: [u32; 64],
    pub shares: [u32; 64],
}

// The target of every node: p over the nodes rounded down, and 1 more for nodes below the remainder.
fn targets(p: u32, nodes: usize) -> [u32; 64]
    requires { (1 ≤ nodes) × (nodes ≤ max_nodes) × (p ≤ max_total) }
    ensures { result ≡ targets_of nodes p }
{
    let even = p / nodes as u32;
    let rest = p % nodes as u32;
    let mut out = [0u32; 64];
    for k in 0..nodes {
        out[k] = if (k as u32) < rest { even + 1 } else { even };
    }
    out
}

// A turn: l helps g, its share is the need, and it is finished. g's load drops by the need.
fn turn(mut s: Balance, l: usize, g: usize, need: u32) -> Balance
    requires { (l < 64) × (g < 64) × (need ≤ at s.loads g) }
    ensures { result ≡ turn_of s l g need }
{
    s.loads[g] -= need;
    s.finished[l] = true;
    s.helpands[l] = g as u32;
    s.shares[l] = need;
    s
}

// The end: the lowest node of B is the root, and the others in B help it with share 0.
fn finish(s: Balance, nodes: usize) -> Rebuilt
    requires { nodes ≤ max_nodes }
    ensures { result ≡ finish_of nodes s }
{
    let Some(root) = s.lowest_in_b(nodes) else {
        // never: the nodes that are not finished are in B, and there is one
        return Rebuilt {
            helpands: s.helpands,
            shares: s.shares,
        };
    };
    let mut helpands = [0u32; 64];
    let mut shares = [0u32; 64];
    for k in 0..nodes {
        if s.in_b(k) {
            helpands[k] = root as u32;
            shares[k] = 0;
        } else {
            helpands[k] = s.helpands[k];
            shares[k] = s.shares[k];
        }
    }
    Rebuilt { helpands, shares }
}

// The new tree and shares for these totals, which add up to p. Where there is no old tree, each node is its own old helpand.
pub fn rebuild(totals: [u32; 64], old: [u32; 64], nodes: usize, p: u32) -> Rebuilt
    requires { (1 ≤ nodes) × (nodes ≤ max_nodes) × (helpands_below nodes (at old) ≡ true) × (sum nodes (at totals) ≡ p) × (p ≤ max_total) }
    ensures { result ≡ rebuilt_of nodes p totals old }
{
    let targets = targets(p, nodes);
    let mut s = Balance {
        loads: totals,
        targets,
        finished: [false; 64],
        helpands: [0u32; 64],
        shares: [0u32; 64],
    };
    while let Some(l) = s.smallest_in_a(nodes) {
        let need = s.targets[l] - s.loads[l];
        let Some(g) = s.choose(nodes, l, need, old[l] as usize) else {
            // never: B has a node while A has one
            break;
        };
        s = turn(s, l, g, need);
    }
    finish(s, nodes)
}
