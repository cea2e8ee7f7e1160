// The level of a family: how far its rooms are brought down together by the rest. Whoever has room is at the limit once it is full, so
// the smallest standing load is the largest room.
ghost use Rattle.std.specs.Prelude.{◌≡◌, ◌+◌, ◌-◌, ◌/◌, ◌≤◌, ◌<◌, ltb};
ghost use Rattle.fold.specs.Sum.{only};
ghost use Rattle.shares.specs.Inner.{nodes_in, rooms_now, over, count_above, Somewhere, Lowest};

use super::family::room;
use super::kept::Family;

// What it takes to bring the rooms of a family down to a level, and how many of them are above it.
#[derive(Drop)]
struct Excess {
    particles: u64,
    members: u64,
}

// What it takes to bring one room down to a level.
fn over(room: u32, level: u32) -> u64
    ensures { (result ≡ room - level) × (result < 4294967296) }
{
    u64::from(room.saturating_sub(level))
}

// 1 if a room is above a level, and 0 otherwise.
fn one_above(room: u32, level: u32) -> u64
    ensures { (result ≡ only (ltb level room) 1) × (result ≤ 1) }
{
    u64::from(level < room)
}

// By how much a level is raised that so many members are above, together by so many particles too much. No level between will do: the
// members that are above it now are all that can be above a higher one.
fn rise(particles: u64, members: u64) -> u64
    requires { (0 < particles) × (0 < members) }
    ensures { result ≡ (particles - 1) / members + 1 }
{
    (particles - 1) / members + 1
}

// A level, and what is left of the rest when all rooms are brought down to it.
#[derive(Drop)]
pub struct Reached {
    pub level: u32,
    pub left: u32,
}

impl<'a> Family<'a> {
    // The family above a level. Its owner has this room, and its helpers what is noted.
    fn above(&self, own: u32, noted: &[u32; 64], level: u32) -> Excess
        ensures { (result.particles ≡ over (nodes_in self.now) (rooms_now self.now own noted.now) level)
            × (result.members ≡ count_above (nodes_in self.now) (rooms_now self.now own noted.now) level) }
    {
        let helpers = self.tree.helpers;
        let mut particles = over(own, level);
        let mut members = one_above(own, level);
        let mut k = helpers.first(self.n);
        while k < helpers.nodes {
            let room = room(self.tree.limit, self.reserves[k], noted[k]);
            particles += over(room, level);
            members += one_above(room, level);
            k = helpers.next(k);
        }
        Excess { particles, members }
    }

    // The lowest level that the rest reaches, where some member has a room of this size: all of the rest would bring that room down to
    // the level where the search begins. Each turn leaves fewer members above the level, so there are no more turns than members.
    pub fn lowest(&self, own: u32, noted: &[u32; 64], most: u32, rest: u32) -> Reached
        requires { Somewhere (nodes_in self.now) (rooms_now self.now own noted.now) most }
        ensures { (Lowest (nodes_in self.now) (rooms_now self.now own noted.now) rest result.level)
            × (result.left ≡ rest - over (nodes_in self.now) (rooms_now self.now own noted.now) result.level) }
    {
        let wide = u64::from(rest);
        let mut level = most.saturating_sub(rest);
        loop {
            let high = self.above(own, noted, level);
            if high.particles <= wide {
                let left = rest - high.particles as u32;
                return Reached { level, left };
            }
            level += rise(high.particles - wide, high.members) as u32;
        }
    }
}
