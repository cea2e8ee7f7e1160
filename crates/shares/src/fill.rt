// How the rest of a family is filled: "as if one particle after another were given to the family member with the smallest standing load
// that still has space, lowest node number on ties". All rooms are brought down to the lowest level that the rest reaches, and what is
// left goes one each to the first that stand there.
ghost use Rattle.std.specs.Prelude.{◌≡◌, ◌+◌, ◌-◌, ◌≤◌, ◌<◌, ltb};
ghost use Rattle.fold.specs.Sum.{only};
ghost use Rattle.arrays.specs.Arrays.{at};
ghost use Rattle.shares.specs.Inner.{nodes_in, helpand_in, Noted, rooms_now, filled_in, Somewhere, gets};

use super::family::{Kept, room};
use super::kept::Family;
use super::level::Reached;

// 1 if a room reaches a level above 0, and 0 otherwise: what it takes to go on to the next level.
fn unit(room: u32, level: u32) -> u32
    ensures { result ≡ room - (level - 1) - (room - level) }
{
    u32::from(0 < level && level <= room)
}

// What is left for helper k of n: the owner takes its own before helpers of higher number.
fn left_for(k: usize, n: usize, left: u32, own: u32) -> u32
    ensures { result ≡ left - only (ltb n k) own }
{
    if n < k {
        left.saturating_sub(own)
    } else {
        left
    }
}

// An amount, once its room is brought down to a level, and by this one more.
fn raised(amount: u32, room: u32, level: u32, extra: u32) -> u32
    requires { (extra ≤ room - (level - 1) - (room - level)) × (amount + room < 4294967296) }
    ensures { result ≡ amount + (room - level + extra) }
{
    amount + (room.saturating_sub(level) + extra)
}

impl<'a> Family<'a> {
    // Brings the rooms of all helpers down to a level, and gives one each of what is left to the first members that reach it. The owner
    // has this room.
    fn spread(&self, own: u32, reached: Reached, shares: &mut [u32; 64])
        ensures { Noted (helpand_in self.now) self.now.n
            (λ k. at shares.old k + gets (rooms_now self.now own shares.old) reached.level reached.left k)
            (nodes_in self.now) shares.old shares.new }
    {
        let helpers = self.tree.helpers;
        let Reached { level, left } = reached;
        let owner = unit(own, level);
        let mut some = left;
        let mut k = helpers.first(self.n);
        while k < helpers.nodes {
            let room = room(self.tree.limit, self.reserves[k], shares[k]);
            let one = unit(room, level);
            let extra = left_for(k, self.n, some, owner).min(one);
            shares[k] = raised(shares[k], room, level, extra);
            some = some.saturating_sub(one);
            k = helpers.next(k);
        }
    }

    // Fills the rest into the rooms of the family, and notes what its helpers have. What they keep is noted already.
    pub fn fill(&self, kept: Kept, shares: &mut [u32; 64])
        requires { Somewhere (nodes_in self.now) (rooms_now self.now (self.now.tree.now.limit - self.now.share - kept.own) shares.old) kept.most }
        ensures { Noted (helpand_in self.now) self.now.n (filled_in self.now kept.own kept.rest shares.old) (nodes_in self.now)
            shares.old shares.new }
    {
        let own = room(self.tree.limit, self.share, kept.own);
        let reached = self.lowest(own, shares, kept.most, kept.rest);
        self.spread(own, reached, shares);
    }
}
