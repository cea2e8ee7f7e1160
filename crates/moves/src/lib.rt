// The record `moves`: how many particles of which subdomain go from whom to whom. *Read moves* stands here, routes in `route`, the
// writer in `write`.
#![tactic(auto)]

ghost use Rattle.std.specs.Prelude.{◌≡◌, ◌+◌, ◌*◌, ◌≤◌, length};
ghost use Rattle.fold.specs.All.{every};
ghost use Rattle.fold.specs.Rising.{rising};
ghost use Rattle.limit.specs.Limit.{max_nodes};
ghost use Rattle.moves.specs.Moves.{routes_of, counts_of, route_fine, count_fine, entries_answer, read_moves, refusal_number, answer_of};

use words::Refusal;

pub mod route;
pub mod write;

// What accepted moves give: N and E.
#[derive(Clone, Copy)]
pub struct Moves {
    pub n: u32,
    pub e: u32,
}

// Why moves are refused, in the order of the checks.
#[derive(Clone, Copy, Debug, PartialEq, Eq)]
pub enum MovesRefusal {
    Short,
    Nodes,
    Entries,
    Length,
    Route,
    Count,
}

// The answer in document 01's numbers: 0 or the refusal's, and the values named, all 0 in a refusal.
#[repr(C)]
#[derive(Clone, Copy)]
pub struct MovesAnswer {
    pub refusal: u32,
    pub n: u32,
    pub e: u32,
}

// Whether route r names nodes below n and does not lead from a node to itself.
fn route_fine(n: u32, r: u32) -> bool
    ensures { result ≡ route_fine n r }
{
    let subdomain = route::subdomain(r);
    let sender = route::sender(r);
    let receiver = route::receiver(r);
    subdomain < n && sender < n && receiver < n && sender != receiver
}

// Whether a count is 1 to 1,000,000,000.
fn count_fine(count: u32) -> bool
    ensures { result ≡ count_fine count }
{
    0 < count && count <= limit::MAX_TOTAL
}

// The routes and counts of moves whose header and length are right.
fn read_entries(s: &[u8], n: u32, e: u32) -> Result<Moves, MovesRefusal>
    requires { (4 * (2 + 2 * e) ≤ length s.now) × (n ≤ max_nodes) }
    ensures { answer_of result ≡ entries_answer s.now n e }
{
    let k = e as usize;
    if !words::lists::rising(s, 2, k, |r| route_fine(n, r)) {
        return Err(MovesRefusal::Route);
    }
    if !words::lists::every(s, 2 + k, k, count_fine) {
        return Err(MovesRefusal::Count);
    }
    Ok(Moves { n, e })
}

// *Read moves*.
pub fn read_moves(s: &[u8]) -> Result<Moves, MovesRefusal>
    ensures { answer_of result ≡ read_moves s.now }
{
    if s.len() < 8 {
        return Err(MovesRefusal::Short);
    }
    let n = words::word_number(s, 0);
    let e = words::word_number(s, 1);
    if !limit::one_to(limit::MAX_NODES, n) {
        return Err(MovesRefusal::Nodes);
    }
    if n * (n - 1) < e {
        return Err(MovesRefusal::Entries);
    }
    if s.len() != 4 * (2 + 2 * e as usize) {
        return Err(MovesRefusal::Length);
    }
    read_entries(s, n, e)
}

impl Refusal for MovesRefusal {
    ghost number_of = { refusal_number };

    fn number(self) -> u32 {
        match self {
            MovesRefusal::Short => 31,
            MovesRefusal::Nodes => 32,
            MovesRefusal::Entries => 33,
            MovesRefusal::Length => 34,
            MovesRefusal::Route => 35,
            MovesRefusal::Count => 36,
        }
    }
}

impl From<Result<Moves, MovesRefusal>> for MovesAnswer {
    ghost from_gives = { λ reading answer. answer ≡ answer_of reading };

    fn from(reading: Result<Moves, MovesRefusal>) -> MovesAnswer {
        match reading {
            Ok(m) => MovesAnswer {
                refusal: 0,
                n: m.n,
                e: m.e,
            },
            Err(r) => MovesAnswer {
                refusal: r.number(),
                n: 0,
                e: 0,
            },
        }
    }
}
