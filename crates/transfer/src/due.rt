// Document 01, 'Moves': "The due amount of a subdomain is its share for a helper of the owner, Pn less those shares for the owner,
// and 0 for any other node."
ghost use Rattle.std.specs.Prelude.{◌≡◌, ℕ, ◌≤◌, ◌<◌};
ghost use Rattle.limit.specs.Limit.{max_nodes};
ghost use Rattle.arrays.specs.Arrays.{at, tabulate};
ghost use Rattle.tree.specs.Division.{own_of};
ghost use Rattle.transfer.specs.Due.{due_with};
ghost use Rattle.transfer.specs.Inner.{Allotted};

// What is left of each subdomain for its owner: its total, from which each helper's share is taken off as the helper is met.
pub fn own_amounts(
    totals: [u32; 64],
    helpands: [u32; 64],
    shares: [u32; 64],
    nodes: usize,
) -> [u32; 64]
    requires { (nodes ≤ max_nodes) × Allotted nodes (at helpands) (at totals) (at shares) × ((k : ℕ) → nodes ≤ k → at totals k ≡ 0) }
    ensures { result ≡ tabulate nodes (own_of nodes (at helpands) (at totals) (at shares)) }
{
    let mut own = totals;
    for k in 0..nodes {
        let owner = helpands[k] as usize;
        if owner != k {
            own[owner] -= shares[k];
        }
    }
    own
}

// What node k is due of subdomain n. All five have one width, so that the compiler can work out several nodes at once.
fn due_amount(helpand: u32, share: u32, own: u32, n: u32, k: u32) -> u32
    ensures { result ≡ due_with (λ (j : ℕ). helpand) (λ (j : ℕ). share) own n k }
{
    if k == n {
        own
    } else if helpand == n {
        share
    } else {
        0
    }
}

// What each node is due of subdomain n, where own is what is left for its owner.
pub fn due_amounts(
    helpands: &[u32; 64],
    shares: &[u32; 64],
    own: u32,
    nodes: usize,
    n: usize,
) -> [u32; 64]
    requires { (nodes ≤ max_nodes) × (n < nodes) }
    ensures { result ≡ tabulate nodes (due_with (at helpands.now) (at shares.now) own n) }
{
    let mut due = [0u32; 64];
    for k in 0..nodes {
        due[k] = due_amount(helpands[k], shares[k], own, n as u32, k as u32);
    }
    due
}
