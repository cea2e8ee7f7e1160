// The groups of one node: of the two families that it belongs to, its own and its helpand's, one is even and the other odd.
ghost use Rattle.std.specs.Prelude.{◌≡◌, true, ◌<◌};
ghost use Rattle.arrays.specs.Arrays.{at};
ghost use Rattle.groups.specs.declared.colour.Colour.TheVariants.{Even, Odd};
ghost use Rattle.groups.specs.Colour.{coloured};
ghost use Rattle.groups.specs.Group.{group_in};
ghost use Rattle.groups.specs.Inner.{Rooted, OwnGroups, Groupable, helped_group};

// The colours, in the order in which they are written.
#[derive(Drop)]
pub enum Colour {
    Even,
    Odd,
}

// Stands for no group.
pub const NO_GROUP: u32 = 64;

// A node's group in each colour.
#[derive(Drop)]
pub struct Entries {
    pub even: u32,
    pub odd: u32,
}

// The colour of an owner's family, from its distance.
fn family_colour(distance: u32) -> Colour
    ensures { coloured result distance ≡ true }
{
    if distance % 2 == 0 {
        Colour::Even
    } else {
        Colour::Odd
    }
}

// The name of each node's own group: its number, where the node has a helper.
pub fn own_groups(helpands: &[u32; 64], nodes: usize) -> [u32; 64]
    requires { Rooted nodes (at helpands.now) }
    ensures { OwnGroups nodes (at helpands.now) result }
{
    let mut own = [NO_GROUP; 64];
    for k in 0..nodes {
        let helpand = helpands[k] as usize;
        if helpand != k {
            own[helpand] = helpand as u32;
        }
    }
    own
}

// The name of the group that a node is a helper in: its helpand's, unless it is a root.
fn helped_group(helpand: u32, k: usize) -> u32
    ensures { result ≡ helped_group helpand k }
{
    if helpand as usize == k {
        NO_GROUP
    } else {
        helpand
    }
}

// The groups of node k. Its own family has the colour of its distance, and its helpand's the other.
pub fn entries_of(
    helpands: &[u32; 64],
    distances: &[u32; 64],
    own: &[u32; 64],
    nodes: usize,
    k: usize,
) -> Entries
    requires { Groupable nodes (at helpands.now) distances.now own.now × (k < nodes) }
    ensures { (result.even ≡ group_in nodes (at helpands.now) Even k) × (result.odd ≡ group_in nodes (at helpands.now) Odd k) }
{
    let as_owner = own[k];
    let as_helper = helped_group(helpands[k], k);
    match family_colour(distances[k]) {
        Colour::Even => Entries {
            even: as_owner,
            odd: as_helper,
        },
        Colour::Odd => Entries {
            even: as_helper,
            odd: as_owner,
        },
    }
}
