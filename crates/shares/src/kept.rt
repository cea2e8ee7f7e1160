// What the shares of a kept tree are found from.
ghost use Rattle.std.specs.Prelude.{◌≡◌, ◌≤◌, ◌<◌};
ghost use Rattle.plan.specs.Tree.{Tree};
ghost use Rattle.arrays.specs.Arrays.{at};
ghost use Rattle.sheet.specs.Totals.{totals_of};
ghost use Rattle.shares.specs.Hold.{holds_of};

use limit::TABLE_SIZE;
use tree::links::Helpers;

// A tree that is kept: who helps whom, its root, the limit, who holds what, and the total, the least and the hold of each node.
#[derive(Drop)]
pub struct KeptTree<'a> {
    pub helpers: &'a Helpers<'a>,
    pub root: usize,
    pub limit: u32,
    pub table: &'a [u32; TABLE_SIZE],
    pub totals: &'a [u32; 64],
    pub leasts: &'a [u32; 64],
    pub holds: &'a [u32; 64],
    pub ghost rooted: { Tree helpers.now.nodes (at helpers.now.helpands.now) root },
    // The search for a level does not read the limit, and goes by its range.
    pub ghost fits: { limit ≤ 4294967295 },
    pub ghost counted: { totals.now ≡ totals_of helpers.now.nodes table.now },
    pub ghost held: { holds.now ≡ holds_of helpers.now.nodes limit leasts.now table.now },
}

// The family of node n, whose share is this one. Each helper's hold or least is its reserve.
#[derive(Drop)]
pub struct Family<'a> {
    pub tree: &'a KeptTree<'a>,
    pub n: usize,
    pub share: u32,
    pub reserves: &'a [u32; 64],
    pub ghost inside: { n < tree.now.helpers.now.nodes },
}
