// Holds: request 2026-07. What helpers leave for their own particles, where their family can afford it.
ghost use Rattle.std.specs.Prelude.{◌≡◌, ◌*◌, ◌≤◌, ◌<◌, min, max};
ghost use Rattle.limit.specs.Limit.{max_nodes};
ghost use Rattle.arrays.specs.Arrays.{at};
ghost use Rattle.sheet.specs.Table.{held};
ghost use Rattle.tree.specs.Family.{over_helpers};
ghost use Rattle.shares.specs.Hold.{holds_of, family_size, affords};
ghost use Rattle.shares.specs.Inner.{nodes_of, helpand_of};

use super::kept::KeptTree;
use limit::TABLE_SIZE;
use sheet::table;

// A node's hold: the larger of its least and what it holds of its own subdomain, capped at the limit.
fn hold(table: &[u32; TABLE_SIZE], limit: u32, least: u32, k: usize) -> u32
    requires { k < max_nodes }
    ensures { result ≡ max least (min (held table.now k k) limit) }
{
    least.max(table::held(table, k, k).min(limit))
}

// The holds of all nodes: they depend on no family, so each is found once.
pub fn holds(table: &[u32; TABLE_SIZE], leasts: &[u32; 64], nodes: usize, limit: u32) -> [u32; 64]
    requires { nodes ≤ max_nodes }
    ensures { result ≡ holds_of nodes limit leasts.now table.now }
{
    let mut out = [0u32; 64];
    for k in 0..nodes {
        out[k] = hold(table, limit, leasts[k], k);
    }
    out
}

// The holds of a family's helpers together, and how many members it has.
#[derive(Drop)]
struct Members {
    holds: u64,
    size: u64,
}

impl<'a> KeptTree<'a> {
    // The family of n. No sum of it wraps in 64 bits.
    fn members(&self, n: usize) -> Members
        requires { n < nodes_of self.now }
        ensures { (result.holds ≡ over_helpers (nodes_of self.now) (helpand_of self.now) n (at self.now.holds.now))
            × (result.size ≡ family_size (nodes_of self.now) (helpand_of self.now) n)
            × (result.holds ≤ 64 * 4294967295) × (result.size ≤ 65) }
    {
        let mut holds = 0u64;
        let mut size = 1u64;
        let mut k = self.helpers.first(n);
        while k < self.helpers.nodes {
            holds += u64::from(self.holds[k]);
            size += 1;
            k = self.helpers.next(k);
        }
        Members { holds, size }
    }

    // Whether the family of n, whose owner has this share, can afford the holds of its helpers.
    pub fn affords(&self, share: u32, n: usize) -> bool
        requires { n < nodes_of self.now }
        ensures { result
            ≡ affords (nodes_of self.now) (helpand_of self.now) self.now.limit (at self.now.holds.now) (at self.now.totals.now) share n }
    {
        let family = self.members(n);
        let wanted = u64::from(self.totals[n]) + u64::from(share) + family.holds;
        wanted <= u64::from(self.limit) * family.size
    }
}
