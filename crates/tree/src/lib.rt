// Deciding, first part: whether the plan is primary. Weighing a tree stands in `least`, and the links that it goes
// by in `links`.
#![tactic(auto)]

ghost use Rattle.std.specs.Prelude.{◌≡◌, ◌≤◌};
ghost use Rattle.limit.specs.Limit.{max_nodes};
ghost use Rattle.arrays.specs.Arrays.{at};
ghost use Rattle.tree.specs.Primary.{primary};

pub mod least;
pub mod links;

// "Primary: if every Pn is at most L, the plan is kind 0 whatever the old tree."
pub fn is_primary(totals: [u32; 64], nodes: usize, limit: u32) -> bool
    requires { nodes ≤ max_nodes }
    ensures { result ≡ primary nodes (at totals) limit }
{
    arrays::all_at_most(totals, nodes, limit)
}
