// Document 01, 'Rebuilding': its groups A and B, and the nodes that are looked for in them.
ghost use Rattle.std.specs.Prelude.{◌≡◌, ◌≤◌, ◌<◌, IfSome};
ghost use Rattle.arrays.specs.Arrays.{at};
ghost use Rattle.limit.specs.Limit.{max_nodes};
ghost use Rattle.rebuild.specs.Rebuild.{group_a, group_b, in_b, smallest_in_a, largest_in_b, lowest_in_b, chosen};

use crate::Balance;

// Whether a node is in group A: its load is under its target. A finished node is in neither group.
fn in_a(load: u32, target: u32, finished: bool) -> bool
    ensures { result ≡ group_a load target finished }
{
    !finished && load < target
}

// Whether a node is in group B: it has its target or more.
pub fn in_b(load: u32, target: u32, finished: bool) -> bool
    ensures { result ≡ group_b load target finished }
{
    !finished && target <= load
}

// The node in A with the smallest load, the lowest number on ties.
pub fn smallest_in_a<'a>(
    loads: &'a [u32; 64],
    targets: &'a [u32; 64],
    finished: &'a [bool; 64],
    nodes: usize,
) -> Option<usize>
    requires { nodes ≤ max_nodes }
    ensures { result ≡ smallest_in_a nodes loads.now targets.now finished.now }
{
    (0..nodes)
        .filter(|k| in_a(loads[*k], targets[*k], finished[*k]))
        .reduce(|best, k| if loads[k] < loads[best] { k } else { best })
}

// The node in B with the largest load, the lowest number on ties.
fn largest_in_b<'a>(
    loads: &'a [u32; 64],
    targets: &'a [u32; 64],
    finished: &'a [bool; 64],
    nodes: usize,
) -> Option<usize>
    requires { nodes ≤ max_nodes }
    ensures { result ≡ largest_in_b nodes loads.now targets.now finished.now }
{
    (0..nodes)
        .filter(|k| in_b(loads[*k], targets[*k], finished[*k]))
        .reduce(|best, k| if loads[best] < loads[k] { k } else { best })
}

// The lowest node of B, in arrays that are lent.
fn first_in_b<'a>(
    loads: &'a [u32; 64],
    targets: &'a [u32; 64],
    finished: &'a [bool; 64],
    nodes: usize,
) -> Option<usize>
    requires { nodes ≤ max_nodes }
    ensures { result ≡ lowest_in_b nodes loads.now targets.now finished.now }
{
    (0..nodes).find(|k| in_b(loads[*k], targets[*k], finished[*k]))
}

// The lowest node of B.
pub fn lowest_in_b(
    loads: [u32; 64],
    targets: [u32; 64],
    finished: [bool; 64],
    nodes: usize,
) -> Option<usize>
    requires { nodes ≤ max_nodes }
    ensures { result ≡ lowest_in_b nodes loads targets finished }
{
    first_in_b(&loads, &targets, &finished, nodes)
}

// Whom l helps: its helpand in the old tree, if that is another node, in B and has the need; otherwise the node in B with the largest
// load.
pub fn choose<'a>(
    loads: &'a [u32; 64],
    targets: &'a [u32; 64],
    finished: &'a [bool; 64],
    nodes: usize,
    l: usize,
    need: u32,
    old: usize,
) -> Option<usize>
    requires { (nodes ≤ max_nodes) × (old < 64) }
    ensures { result ≡ chosen nodes loads.now targets.now finished.now l need old }
{
    if old != l && in_b(loads[old], targets[old], finished[old]) && need <= loads[old] {
        return Some(old);
    }
    largest_in_b(loads, targets, finished, nodes)
}

// The same of a state.
impl Balance {
    // Whether a node is in group B.
    pub fn in_b(&self, k: usize) -> bool
        requires { k < 64 }
        ensures { result ≡ in_b self.now.loads self.now.targets self.now.finished k }
    {
        in_b(self.loads[k], self.targets[k], self.finished[k])
    }

    // The node in A with the smallest load; it is under its target.
    pub fn smallest_in_a(&self, nodes: usize) -> Option<usize>
        requires { nodes ≤ max_nodes }
        ensures smallest { result ≡ smallest_in_a nodes self.now.loads self.now.targets self.now.finished }
        ensures under { IfSome result (λ l. (l < nodes) × (at self.now.loads l < at self.now.targets l)) }
    {
        smallest_in_a(&self.loads, &self.targets, &self.finished, nodes)
    }

    // The lowest node of B.
    pub fn lowest_in_b(&self, nodes: usize) -> Option<usize>
        requires { nodes ≤ max_nodes }
        ensures { result ≡ lowest_in_b nodes self.now.loads self.now.targets self.now.finished }
    {
        first_in_b(&self.loads, &self.targets, &self.finished, nodes)
    }

    // Whom l helps.
    pub fn choose(&self, nodes: usize, l: usize, need: u32, old: usize) -> Option<usize>
        requires { (nodes ≤ max_nodes) × (old < 64) }
        ensures { result ≡ chosen nodes self.now.loads self.now.targets self.now.finished l need old }
    {
        choose(
            &self.loads,
            &self.targets,
            &self.finished,
            nodes,
            l,
            need,
            old,
        )
    }
}
