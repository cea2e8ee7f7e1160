// Arrays of 64 numbers, one for each node: definitions in specs/, their laws in proofs/, and a test of all nodes' entries.
#![tactic(auto)]

ghost use Rattle.std.specs.Prelude.{◌≡◌, ◌≤◌, leb};
ghost use Rattle.fold.specs.All.{all};
ghost use Rattle.arrays.specs.Arrays.{at};

// Whether no node's entry is above the bound: asked of helpands, of totals and of leasts. It looks at all of them, which takes less time
// than to stop at the first: so several are compared at once.
pub fn all_at_most(entries: [u32; 64], nodes: usize, bound: u32) -> bool
    requires { nodes ≤ 64 }
    ensures { result ≡ all nodes (λ k. leb (at entries k) bound) }
{
    let mut fine = true;
    for k in 0..nodes {
        fine &= entries[k] <= bound;
    }
    fine
}
