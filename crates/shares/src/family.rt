// One family: the room that a member has, what it keeps, and the rest.
ghost use Rattle.std.specs.Prelude.{◌≡◌, ◌+◌, ◌-◌, ◌<◌, min};
ghost use Rattle.sheet.specs.Table.{held};
ghost use Rattle.shares.specs.Inner.{nodes_in, helpand_in, keeps_in, rooms_in, rest_in, Noted, Somewhere};

use super::kept::Family;
use sheet::table;

// What a member has space for beyond its amount. Beside it an owner has its share, and a helper its reserve.
pub fn room(limit: u32, beside: u32, amount: u32) -> u32
    ensures { (result ≡ limit - beside - amount) × (amount + result < 4294967296) }
{
    limit.saturating_sub(beside).saturating_sub(amount)
}

// What the owner keeps, the rest, which no member keeps, and the largest room that a member has.
#[derive(Drop)]
pub struct Kept {
    pub own: u32,
    pub rest: u32,
    pub most: u32,
}

impl<'a> Family<'a> {
    // What member k keeps, which has this beside it.
    fn keeps(&self, beside: u32, k: usize) -> u32
        requires { k < nodes_in self.now }
        ensures { result ≡ min (self.now.tree.now.limit - beside) (held self.now.tree.now.table.now k self.now.n) }
    {
        let space = self.tree.limit.saturating_sub(beside);
        space.min(table::held(self.tree.table, k, self.n))
    }

    // What the members keep of their owner's subdomain, noted for the helpers.
    pub fn keep(&self, shares: &mut [u32; 64]) -> Kept
        ensures { (result.own ≡ keeps_in self.now self.now.n) × (result.rest ≡ rest_in self.now)
            × (Somewhere (nodes_in self.now) (rooms_in self.now) result.most)
            × Noted (helpand_in self.now) self.now.n (keeps_in self.now) (nodes_in self.now) shares.old shares.new }
    {
        let tree = self.tree;
        let own = self.keeps(self.share, self.n);
        let mut rest = tree.totals[self.n] - own;
        let mut most = room(tree.limit, self.share, own);
        let mut k = tree.helpers.first(self.n);
        while k < tree.helpers.nodes {
            let amount = self.keeps(self.reserves[k], k);
            rest -= amount;
            most = most.max(room(tree.limit, self.reserves[k], amount));
            shares[k] = amount;
            k = tree.helpers.next(k);
        }
        Kept { own, rest, most }
    }
}
