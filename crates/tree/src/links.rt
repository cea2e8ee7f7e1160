// Links from helper to helper, so that nobody searches all nodes for the helpers of one.
ghost use Rattle.std.specs.Prelude.{◌≡◌, true, ℕ, ◌+◌, ◌≤◌, ◌<◌};
ghost use Rattle.limit.specs.Limit.{max_nodes};
ghost use Rattle.fold.specs.First.{FirstFrom};
ghost use Rattle.arrays.specs.Arrays.{at};
ghost use Rattle.tree.specs.Family.{helps};
ghost use Rattle.tree.specs.Links.{Linked};

// At n the lowest helper of n, at 64 + k the next after k of the node that k helps, and the number of nodes where there is none. They are
// linked from the last node down, and whoever k is, its link goes on to a higher number.
pub fn helper_links(helpands: &[u32; 64], nodes: usize) -> [usize; 128]
    requires { (nodes ≤ max_nodes) × ((k : ℕ) → k < nodes → at helpands.now k < nodes) }
    ensures linked { Linked nodes (at helpands.now) result }
    ensures onward { (k : ℕ) → k < nodes → k < at result (64 + k) }
{
    let mut links = [nodes; 128];
    for k in (0..nodes).rev() {
        let helpand = helpands[k] as usize;
        if helpand != k {
            links[64 + k] = links[helpand];
            links[helpand] = k;
        }
    }
    links
}

// The lowest helper of n.
pub fn first(links: &[usize; 128], n: usize) -> usize
    requires { n < max_nodes }
    ensures { result ≡ at links.now n }
{
    links[n]
}

// The next helper after k of the node that k helps.
pub fn next(links: &[usize; 128], k: usize) -> usize
    requires { k < max_nodes }
    ensures { result ≡ at links.now (64 + k) }
{
    links[64 + k]
}

// The helpers of each node, by rising number. The helpands need not be a tree.
#[derive(Drop)]
pub struct Helpers<'a> {
    pub nodes: usize,
    pub helpands: &'a [u32; 64],
    links: [usize; 128],
    pub ghost few: { nodes ≤ max_nodes },
    pub ghost inside: { (k : ℕ) → k < nodes → at helpands.now k < nodes },
    ghost linked: { Linked nodes (at helpands.now) links },
    ghost onward: { (k : ℕ) → k < nodes → k < at links (64 + k) },
}

impl<'a> Helpers<'a> {
    // With the links of these helpands.
    pub fn of(helpands: &'a [u32; 64], nodes: usize) -> Helpers<'a>
        requires { (nodes ≤ max_nodes) × ((k : ℕ) → k < nodes → at helpands.now k < nodes) }
        ensures { (result.nodes ≡ nodes) × (result.helpands.now ≡ helpands.now) }
    {
        let links = helper_links(helpands, nodes);
        Helpers {
            nodes,
            helpands,
            links,
        }
    }

    // The lowest helper of n, or the number of nodes where there is none.
    pub fn first(&self, n: usize) -> usize
        requires { n < max_nodes }
        ensures { n < self.now.nodes → FirstFrom self.now.nodes (helps (at self.now.helpands.now) n) 0 result }
    {
        first(&self.links, n)
    }

    // The next helper after k of the node that k helps, or the number of nodes.
    pub fn next(&self, k: usize) -> usize
        requires { k < max_nodes }
        ensures on { k < self.now.nodes → k < result }
        ensures next { (n : ℕ) → k < self.now.nodes → helps (at self.now.helpands.now) n k ≡ true
            → FirstFrom self.now.nodes (helps (at self.now.helpands.now) n) (k + 1) result }
    {
        next(&self.links, k)
    }
}
