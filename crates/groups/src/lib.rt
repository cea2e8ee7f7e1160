// *Groups*, request 2026-06: the families of a plan as groups for a message library, in two colours, written to a lent buffer. Above the
// balancer: it uses the plan and its tree, and nothing of the balancer uses it.
#![tactic(auto)]

ghost use Rattle.std.specs.Prelude.{◌≡◌, ◌≤◌, length};
ghost use Rattle.limit.specs.Limit.{max_nodes};
ghost use Rattle.words.specs.Buffer.{placed};
ghost use Rattle.arrays.specs.Arrays.{at};
ghost use Rattle.plan.specs.Plan.{read_plan, accepted};
ghost use Rattle.plan.specs.Kinds.{kind_number};
ghost use Rattle.groups.specs.Group.{group_in};
ghost use Rattle.groups.specs.Groups.{groups_bytes, groups_size, groups_answer, groups_after, number_of, answer_of};
ghost use Rattle.groups.specs.declared.GroupsRefusal.TheVariants.{Plan as OfPlan};
ghost use Rattle.groups.specs.Inner.{Rooted, Groupable, with_entries, no_groups};

use colour::NO_GROUP;
use plan::{Plan, PlanRefusal};
use words::Refusal;

pub mod colour;
pub mod distance;

// Why no groups are written: as the plan is refused; the buffer.
#[derive(Clone, Copy, Debug, PartialEq, Eq)]
pub enum GroupsRefusal {
    Plan(PlanRefusal),
    Buffer,
}

impl From<PlanRefusal> for GroupsRefusal {
    ghost from_gives = { λ r made. made ≡ OfPlan r };

    fn from(r: PlanRefusal) -> GroupsRefusal {
        GroupsRefusal::Plan(r)
    }
}

impl Refusal for GroupsRefusal {
    ghost number_of = { number_of };

    fn number(self) -> u32 {
        match self {
            GroupsRefusal::Plan(r) => r.number(),
            GroupsRefusal::Buffer => 57,
        }
    }
}

// Writes each node's group in the even colour behind the first word, and behind these each node's group in the odd.
fn put_entries(
    out: &mut [u8],
    helpands: &[u32; 64],
    distances: &[u32; 64],
    own: &[u32; 64],
    nodes: usize,
)
    requires { Groupable nodes (at helpands.now) distances.now own.now × (groups_size nodes ≤ length out.old) }
    ensures { out.new ≡ with_entries nodes (group_in nodes (at helpands.now)) nodes out.old }
{
    for k in 0..nodes {
        let entries = colour::entries_of(helpands, distances, own, nodes, k);
        words::put_word(out, 1 + k, entries.even);
        words::put_word(out, 1 + nodes + k, entries.odd);
    }
}

// Writes the groups of n nodes into a buffer that is long enough.
fn put_groups(out: &mut [u8], n: u32, helpands: [u32; 64])
    requires { Rooted n (at helpands) × (groups_size n ≤ length out.old) }
    ensures { out.new ≡ placed (groups_bytes n (at helpands)) out.old }
{
    let nodes = n as usize;
    let distances = distance::distances(&helpands, nodes);
    let own = colour::own_groups(&helpands, nodes);
    words::put_word(out, 0, n);
    put_entries(out, &helpands, &distances, &own, nodes);
}

// The same where no node helps.
fn put_none(out: &mut [u8], n: u32)
    requires { (n ≤ max_nodes) × (groups_size n ≤ length out.old) }
    ensures { out.new ≡ placed (no_groups n) out.old }
{
    let nodes = n as usize;
    let none = [NO_GROUP; 64];
    words::put_word(out, 0, n);
    words::put_words(out, 1, &none[..nodes]);
    words::put_words(out, 1 + nodes, &none[..nodes]);
}

// Writes the groups of a plan that was read.
#[tactic(auto, unfolding(crate::specs::Groups::groups_answer))]
fn groups_read(plan: &[u8], p: Plan, groups: &mut [u8]) -> Result<u32, GroupsRefusal>
    requires { accepted p.n (kind_number p.kind) p.limit ≡ read_plan plan.now }
    ensures answer { answer_of result ≡ groups_answer plan.now (length groups.old) }
    ensures bytes { groups.new ≡ groups_after plan.now groups.old }
{
    let nodes = p.n as usize;
    if groups.len() < 4 * (1 + 2 * nodes) {
        return Err(GroupsRefusal::Buffer);
    }
    if p.kind.is_primary() {
        put_none(groups, p.n);
    } else {
        put_groups(groups, p.n, words::words_64(plan, 3, nodes));
    }
    Ok(4 * (1 + 2 * p.n))
}

// *Groups*.
#[tactic(auto, using(plan::proofs::Answers::number_more), unfolding(crate::specs::Groups::groups_answer))]
pub fn groups(plan: &[u8], groups: &mut [u8]) -> Result<u32, GroupsRefusal>
    ensures answer { answer_of result ≡ groups_answer plan.now (length groups.old) }
    ensures bytes { groups.new ≡ groups_after plan.now groups.old }
{
    let p = plan::read_plan(plan)?;
    groups_read(plan, p, groups)
}
