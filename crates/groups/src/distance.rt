// Distances from the root, by the chain of helpands.
ghost use Rattle.std.specs.Prelude.{◌≡◌, ◌≤◌, ◌<◌};
ghost use Rattle.limit.specs.Limit.{max_nodes};
ghost use Rattle.arrays.specs.Arrays.{at};
ghost use Rattle.groups.specs.Colour.{distance};
ghost use Rattle.groups.specs.Inner.{Rooted, Known, Noted, Distances};

// Stands for a distance that is not known yet: every chain reaches a root within 64 steps.
const UNKNOWN: u32 = 65;

// The distances of roots, and of no other nodes.
fn root_distances(helpands: &[u32; 64], nodes: usize) -> [u32; 64]
    requires { nodes ≤ max_nodes }
    ensures { Known nodes (at helpands.now) result }
{
    let mut known = [UNKNOWN; 64];
    for k in 0..nodes {
        if helpands[k] == k as u32 {
            known[k] = 0;
        }
    }
    known
}

// The distance of node k: its chain is followed as far as a node whose distance is known. The number of nodes is there for the contract.
fn distance(helpands: &[u32; 64], known: &[u32; 64], nodes: usize, k: usize) -> u32
    requires { Rooted nodes (at helpands.now) × Known nodes (at helpands.now) known.now × (k < nodes) }
    ensures { result ≡ distance nodes (at helpands.now) k }
{
    let mut node = k;
    let mut steps = 0;
    while known[node] == UNKNOWN {
        node = helpands[node] as usize;
        steps += 1;
    }
    steps + known[node]
}

// Notes the distance of node k and those of the nodes on its chain, as far as a node whose distance is known.
fn note_chain(helpands: &[u32; 64], known: &mut [u32; 64], nodes: usize, k: usize, from: u32)
    requires { Rooted nodes (at helpands.now) × Known nodes (at helpands.now) known.old × (k < nodes)
        × (from ≡ distance nodes (at helpands.now) k) }
    ensures { Noted nodes (at helpands.now) k known.old known.new }
{
    let mut node = k;
    let mut left = from;
    while known[node] == UNKNOWN {
        known[node] = left;
        node = helpands[node] as usize;
        left -= 1;
    }
}

// The distances of all nodes. Each chain is followed as far as one that was followed before, so that no node is passed more than twice.
pub fn distances(helpands: &[u32; 64], nodes: usize) -> [u32; 64]
    requires { Rooted nodes (at helpands.now) }
    ensures { Distances nodes (at helpands.now) result }
{
    let mut known = root_distances(helpands, nodes);
    for k in 0..nodes {
        let from = distance(helpands, &known, nodes, k);
        note_chain(helpands, &mut known, nodes, k, from);
    }
    known
}
