// Shares in a kept tree, from the root down: the paragraph of that name. Each pass through a family goes from helper to helper.
#![tactic(auto)]

mod family;
mod fill;
mod hold;
mod kept;
mod level;

ghost use Rattle.std.specs.Prelude.{◌≡◌, ℕ, ◌≤◌, ◌<◌};
ghost use Rattle.limit.specs.Limit.{max_nodes};
ghost use Rattle.plan.specs.Tree.{Tree};
ghost use Rattle.sheet.specs.Table.{held};
ghost use Rattle.sheet.specs.Totals.{totals_of};
ghost use Rattle.arrays.specs.Arrays.{at};
ghost use Rattle.tree.specs.Links.{Linked};
ghost use Rattle.tree.specs.Inner.{Shallow, Descended};
ghost use Rattle.shares.specs.Shares.{kept_shares};
ghost use Rattle.shares.specs.Inner.{nodes_in, helpand_in, nodes_of, helpand_of, divided_in, reserves_in, amounts_in, share_in, Noted};

use kept::{Family, KeptTree};
use limit::TABLE_SIZE;
use tree::links::Helpers;

impl<'a> Family<'a> {
    // Divides the family, and notes the shares of its helpers.
    fn divide(&self, shares: &mut [u32; 64])
        ensures { Noted (helpand_in self.now) self.now.n (divided_in self.now) (nodes_in self.now) shares.old shares.new }
    {
        let kept = self.keep(shares);
        if kept.rest == 0 {
            return;
        }
        self.fill(kept, shares);
    }
}

impl<'a> KeptTree<'a> {
    // What the helpers of n leave for their own subdomains, where n has this share: their holds if the family can afford them, and their
    // leasts otherwise.
    fn reserves(&self, share: u32, n: usize) -> &'a [u32; 64]
        requires { n < nodes_of self.now }
        ensures { (k : ℕ) → k < nodes_of self.now → at result.now k ≡ reserves_in self.now share n k }
    {
        if self.affords(share, n) {
            self.holds
        } else {
            self.leasts
        }
    }

    // Divides the family of n, whose share stands already, and notes the shares of its helpers.
    fn divide_family(&self, n: usize, shares: &mut [u32; 64])
        requires { n < nodes_of self.now }
        ensures { Noted (helpand_of self.now) n (amounts_in self.now (at shares.old n) n) (nodes_of self.now) shares.old shares.new }
    {
        let share = shares[n];
        let family = Family {
            tree: self,
            n,
            share,
            reserves: self.reserves(share, n),
        };
        family.divide(shares);
    }

    // Divides the families of n and of all below it, and notes the shares. The share of n stands already.
    fn divide_below(&self, depth: usize, n: usize, shares: &mut [u32; 64])
        requires { (n < nodes_of self.now) × (Shallow (nodes_of self.now) (helpand_of self.now) depth n)
            × (at shares.old n ≡ share_in self.now n) }
        ensures { Descended (nodes_of self.now) (helpand_of self.now) (share_in self.now) n shares.old shares.new }
    {
        if depth == 0 {
            return;
        }
        let mut k = self.helpers.first(n);
        if k == self.helpers.nodes {
            return;
        }
        self.divide_family(n, shares);
        while k < self.helpers.nodes {
            self.divide_below(depth - 1, k, shares);
            k = self.helpers.next(k);
        }
    }
}

// The shares of all nodes in a tree that is kept, with these totals and leasts.
pub fn kept_shares(
    table: &[u32; TABLE_SIZE],
    totals: [u32; 64],
    leasts: [u32; 64],
    helpers: &Helpers,
    root: usize,
    limit: u32,
) -> [u32; 64]
    requires { (Tree helpers.now.nodes (at helpers.now.helpands.now) root) × (totals ≡ totals_of helpers.now.nodes table.now) }
    ensures { result ≡ kept_shares helpers.now.nodes (at helpers.now.helpands.now) limit (at leasts) (at totals) (held table.now) }
{
    let levels = helpers.nodes + 1;
    let holds = hold::holds(table, &leasts, helpers.nodes, limit);
    let tree = KeptTree {
        helpers,
        root,
        limit,
        table,
        totals: &totals,
        leasts: &leasts,
        holds: &holds,
    };
    let mut out = [0u32; 64];
    tree.divide_below(levels, root, &mut out);
    out
}

// The same for a caller that has the helpands and their links at hand, and no `Helpers`.
pub fn shares(
    table: &[u32; TABLE_SIZE],
    totals: [u32; 64],
    leasts: [u32; 64],
    helpands: [u32; 64],
    links: &[usize; 128],
    nodes: usize,
    root: usize,
    limit: u32,
) -> [u32; 64]
    requires { (nodes ≤ max_nodes) × (Tree nodes (at helpands) root) × (Linked nodes (at helpands) links.now)
        × (totals ≡ totals_of nodes table.now) }
    ensures { result ≡ kept_shares nodes (at helpands) limit (at leasts) (at totals) (held table.now) }
{
    let helpers = Helpers::of(&helpands, nodes);
    kept_shares(table, totals, leasts, &helpers, root, limit)
}
