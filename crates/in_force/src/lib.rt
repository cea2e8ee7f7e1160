// Document 01's *tree in force*: the helpands that hold after a step, handed back where they lie in the old or the new plan, with
// nothing copied.
#![tactic(auto)]

ghost use Rattle.std.specs.Prelude.{◌≡◌, ◌+◌, ◌*◌, ◌≤◌, length};
ghost use Rattle.arrays.specs.Arrays.{at};
ghost use Rattle.plan.specs.Plan.{helpands_of};
ghost use Rattle.in_force.specs.InForce.{in_force, Points, part_of, same_helpands};
ghost use Rattle.in_force.specs.Inner.{where_of};

// Whose helpands are in force, and how many they are.
#[derive(Drop)]
enum Chosen {
    Old(u32),
    New(u32),
    Empty,
}

// The stretch in numbers: source 1 is the old plan and 2 the new; start and length are in bytes.
#[repr(C)]
#[derive(Drop)]
pub struct PartAnswer {
    pub source: u32,
    pub start: u32,
    pub length: u32,
}

// Whether two plans of so many nodes have the same helpands.
fn same_helpands(old: &[u8], new: &[u8], nodes: usize) -> bool
    requires { (4 * (3 + nodes) ≤ length old.now) × (4 * (3 + nodes) ≤ length new.now) }
    ensures { result ≡ same_helpands nodes (at (helpands_of old.now nodes)) (at (helpands_of new.now nodes)) }
{
    let end = 12 + 4 * nodes;
    old[12..end] == new[12..end]
}

// Which of the two plans has the helpands in force; each check that fails leaves none.
#[tactic(auto, using(plan::proofs::Answers::number_more), unfolding(crate::specs::InForce::in_force))]
fn choose(old: &[u8], new: &[u8]) -> Chosen
    ensures { where_of result ≡ in_force old.now new.now }
{
    let Ok(a) = plan::read_plan(old) else {
        return Chosen::Empty;
    };
    let Ok(b) = plan::read_plan(new) else {
        return Chosen::Empty;
    };
    if a.n != b.n {
        return Chosen::Empty;
    }
    if !b.kind.is_kept() {
        return Chosen::New(b.n);
    }
    if a.kind.is_primary() {
        return Chosen::Empty;
    }
    if same_helpands(old, new, b.n as usize) {
        Chosen::Old(b.n)
    } else {
        Chosen::Empty
    }
}

// *Tree in force*.
pub fn tree_in_force<'a>(old: &'a [u8], new: &'a [u8]) -> &'a [u8]
    ensures { Points (in_force old.now new.now) result old.entry new.entry }
{
    match choose(old, new) {
        Chosen::Old(n) => &old[12..12 + 4 * n as usize],
        Chosen::New(n) => &new[12..12 + 4 * n as usize],
        Chosen::Empty => &new[0..0],
    }
}

// *Tree in force*, by its place: for the C boundary, over which no reference can be handed back.
pub fn part_in_force(old: &[u8], new: &[u8]) -> PartAnswer
    ensures { result ≡ part_of (in_force old.now new.now) }
{
    match choose(old, new) {
        Chosen::Old(n) => PartAnswer {
            source: 1,
            start: 12,
            length: 4 * n,
        },
        Chosen::New(n) => PartAnswer {
            source: 2,
            start: 12,
            length: 4 * n,
        },
        Chosen::Empty => PartAnswer {
            source: 2,
            start: 0,
            length: 0,
        },
    }
}
