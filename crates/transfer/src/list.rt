// The moves found so far.
ghost use Rattle.std.specs.Prelude.{◌≡◌, [], ◌+◌, ◌≤◌, ◌<◌, ◌++◌, map, length, take};
ghost use Rattle.limit.specs.Limit.{table_size};
ghost use Rattle.transfer.specs.Matching.{move_of, route_of, count_of};

use limit::TABLE_SIZE;
use moves::route;

// Moves: the routes and the counts of so many entries. There is room for as many as a table has cells, more than N × (N−1).
#[derive(Drop)]
pub struct MoveList {
    routes: [u32; TABLE_SIZE],
    counts: [u32; TABLE_SIZE],
    entries: usize,
    ghost room: { entries ≤ table_size },
}

impl MoveList {
    // No moves.
    pub fn new() -> MoveList
        ensures { (take result.entries result.routes ≡ []) × (take result.entries result.counts ≡ []) }
    {
        MoveList {
            routes: [0u32; TABLE_SIZE],
            counts: [0u32; TABLE_SIZE],
            entries: 0,
        }
    }

    // How many entries there are.
    pub fn len(&self) -> usize
        ensures routes { result ≡ length (take self.now.entries self.now.routes) }
        ensures counts { result ≡ length (take self.now.entries self.now.counts) }
        ensures few { result ≤ table_size }
    {
        self.entries
    }

    // The routes of all entries.
    pub fn routes(&self) -> &[u32]
        ensures routes { result.now ≡ take self.now.entries self.now.routes }
        ensures few { length result.now ≤ table_size }
    {
        &self.routes[..self.entries]
    }

    // And as many counts.
    pub fn counts(&self) -> &[u32]
        ensures counts { result.now ≡ take self.now.entries self.now.counts }
        ensures same { length (take self.now.entries self.now.routes) ≡ length result.now }
    {
        &self.counts[..self.entries]
    }

    // Adds a move of subdomain n from s to r, unless its count is 0.
    pub fn push(&mut self, n: usize, s: usize, r: usize, count: u32)
        requires { (n < 64) × (s < 64) × (r < 64) × (length (take self.old.entries self.old.routes) + length (move_of s r count) ≤ table_size) }
        ensures routes { take self.new.entries self.new.routes ≡ take self.old.entries self.old.routes ++ map (route_of n) (move_of s r count) }
        ensures counts { take self.new.entries self.new.counts ≡ take self.old.entries self.old.counts ++ map count_of (move_of s r count) }
    {
        if count == 0 {
            return;
        }
        self.routes[self.entries] = route::route(n, s, r);
        self.counts[self.entries] = count;
        self.entries += 1;
    }
}
