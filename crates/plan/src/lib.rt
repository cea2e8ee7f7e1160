// The record `plan`: who helps whom, and with what share. *Read plan* stands here, the checks of its two arrays in `tree`, the
// writer in `write`.
#![tactic(auto)]

ghost use Rattle.std.specs.Prelude.{◌≡◌, eqb, ◌+◌, ◌*◌, ◌≤◌, length};
ghost use Rattle.limit.specs.Limit.{max_nodes};
ghost use Rattle.plan.specs.Plan.{arrays_answer, read_plan, refusal_number, answer_of};
ghost use Rattle.plan.specs.Kinds.{kind_number, kind_of};
ghost use Rattle.plan.specs.Inner.{kind_read};

use words::Refusal;

pub mod tree;
pub mod write;

// "Kind 0 is primary, 1 kept, 2 rebuilt."
#[derive(Clone, Copy, Debug, PartialEq, Eq)]
pub enum Kind {
    Primary,
    Kept,
    Rebuilt,
}

impl Kind {
    // Whether it is kind 0: such a plan has no tree.
    pub fn is_primary(self) -> bool
        ensures { result ≡ eqb (kind_number self) 0 }
    {
        matches!(self, Kind::Primary)
    }

    // Whether it is kind 1.
    pub fn is_kept(self) -> bool
        ensures { result ≡ eqb (kind_number self) 1 }
    {
        matches!(self, Kind::Kept)
    }
}

impl TryFrom<u32> for Kind {
    type Error = PlanRefusal;

    ghost try_from_gives = { λ word kind. kind ≡ kind_of word };

    fn try_from(word: u32) -> Result<Kind, PlanRefusal> {
        match word {
            0 => Ok(Kind::Primary),
            1 => Ok(Kind::Kept),
            2 => Ok(Kind::Rebuilt),
            _ => Err(PlanRefusal::Kind),
        }
    }
}

impl From<Kind> for u32 {
    ghost from_gives = { λ kind word. word ≡ kind_number kind };

    fn from(kind: Kind) -> u32 {
        match kind {
            Kind::Primary => 0,
            Kind::Kept => 1,
            Kind::Rebuilt => 2,
        }
    }
}

// What an accepted plan gives: N, kind and its limit.
#[derive(Clone, Copy)]
pub struct Plan {
    pub n: u32,
    pub kind: Kind,
    pub limit: u32,
}

// Why a plan is refused, in the order of the checks.
#[derive(Clone, Copy, Debug, PartialEq, Eq)]
pub enum PlanRefusal {
    Short,
    Nodes,
    Kind,
    Limit,
    Length,
    Helpand,
    Shape,
    Share,
}

// The answer in document 01's numbers: 0 or the refusal's, and the values named, all 0 in a refusal.
#[repr(C)]
#[derive(Clone, Copy)]
pub struct PlanAnswer {
    pub refusal: u32,
    pub n: u32,
    pub kind: u32,
    pub limit: u32,
}

// The kind of a plan of n nodes, if it is one of the three, and 0 where there is one node.
fn read_kind(n: u32, word: u32) -> Result<Kind, PlanRefusal>
    ensures { result ≡ kind_read n word }
{
    let kind = Kind::try_from(word)?;
    if n == 1 && !kind.is_primary() {
        return Err(PlanRefusal::Kind);
    }
    Ok(kind)
}

// The helpands and shares of a plan whose header and length are right.
fn read_arrays(s: &[u8], n: u32, kind: Kind, limit: u32) -> Result<Plan, PlanRefusal>
    requires { (4 * (3 + 2 * n) ≤ length s.now) × (1 ≤ n) × (n ≤ max_nodes) }
    ensures { answer_of result ≡ arrays_answer s.now n (kind_number kind) limit }
{
    let k = n as usize;
    let helpands = words::words_64(s, 3, k);
    if !tree::helpands_below(helpands, n) {
        return Err(PlanRefusal::Helpand);
    }
    tree::check_shape(helpands, k, kind.into())?;
    let shares = words::words_64(s, 3 + k, k);
    if !tree::shares_fine(helpands, shares, k, limit) {
        return Err(PlanRefusal::Share);
    }
    Ok(Plan { n, kind, limit })
}

// *Read plan*.
#[tactic(auto, unfolding(crate::specs::Plan::read_plan, crate::specs::Plan::head_answer))]
pub fn read_plan(s: &[u8]) -> Result<Plan, PlanRefusal>
    ensures { answer_of result ≡ read_plan s.now }
{
    if s.len() < 12 {
        return Err(PlanRefusal::Short);
    }
    let n = words::word_number(s, 0);
    let word = words::word_number(s, 1);
    let limit = words::word_number(s, 2);
    if !limit::one_to(limit::MAX_NODES, n) {
        return Err(PlanRefusal::Nodes);
    }
    let kind = read_kind(n, word)?;
    if limit::MAX_LIMIT < limit {
        return Err(PlanRefusal::Limit);
    }
    if s.len() != 4 * (3 + 2 * n as usize) {
        return Err(PlanRefusal::Length);
    }
    read_arrays(s, n, kind, limit)
}

impl Refusal for PlanRefusal {
    ghost number_of = { refusal_number };

    fn number(self) -> u32 {
        match self {
            PlanRefusal::Short => 11,
            PlanRefusal::Nodes => 12,
            PlanRefusal::Kind => 13,
            PlanRefusal::Limit => 14,
            PlanRefusal::Length => 15,
            PlanRefusal::Helpand => 16,
            PlanRefusal::Shape => 17,
            PlanRefusal::Share => 18,
        }
    }
}

impl From<Result<Plan, PlanRefusal>> for PlanAnswer {
    ghost from_gives = { λ reading answer. answer ≡ answer_of reading };

    fn from(reading: Result<Plan, PlanRefusal>) -> PlanAnswer {
        match reading {
            Ok(p) => PlanAnswer {
                refusal: 0,
                n: p.n,
                kind: p.kind.into(),
                limit: p.limit,
            },
            Err(r) => PlanAnswer {
                refusal: r.number(),
                n: 0,
                kind: 0,
                limit: 0,
            },
        }
    }
}
