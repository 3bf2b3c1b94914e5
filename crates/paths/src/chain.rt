// A chain of children.
ghost use Rattle.std.specs.Prelude.{◌≡◌, ◌<◌, ◌≤◌, ◌≢◌, ◌^◌};
ghost use Rattle.facts.specs.Links.{Kid};
ghost use Rattle.facts.specs.State.{kids_in};

use crate::{Facts, Links};

// Gives the children of a path, which form a chain, seen or not, by rising key. next is 0 behind the last. `fits` says
// what the type of `links.used` does: where the chain is borrowed, proofs read it here.
#[derive(Drop)]
pub struct Chain<'a> {
    links: Links<'a>,
    parent: u32,
    next: u32,
    ghost range: { (1 ≤ parent) × (parent ≤ links.used) },
    ghost kid: { (next ≢ 0) → Kid links.table.now links.used parent next },
    ghost fits: { links.used < 2 ^ 32 },
}

impl<'a> Links<'a> {
    ghost use Rattle.facts.specs.State.{nodes};
    ghost use Rattle.paths.specs.Walking.{chain_left};

    pub fn children(&self, r: u32) -> Chain<'a>
        requires { (1 ≤ r) × (r ≤ self.now.used) }
        ensures { chain_left result ≡ kids_in (nodes self.now.table.now self.now.used) r }
    {
        let links = Links {
            table: self.table,
            used: self.used,
        };
        Chain {
            links,
            parent: r,
            next: self.child(r),
        }
    }
}

impl<'a> Facts<'a> {
    ghost use Rattle.paths.specs.Lent.{facts_of};
    ghost use Rattle.paths.specs.Walking.{chain_left};

    pub fn children(&self, r: u32) -> Chain<'a>
        requires { (1 ≤ r) × (r ≤ self.now.used) }
        ensures { chain_left result ≡ kids_in (facts_of self.now) r }
    {
        self.links().children(r)
    }
}

impl Iterator for Chain<'_> {
    ghost use Rattle.std.specs.Iterator.{YieldsFirst, item_count};
    ghost use Rattle.paths.specs.Walking.{chain_left};

    type Item = u32;

    ghost next_gives = { YieldsFirst chain_left };

    ghost remaining = { item_count chain_left };

    fn next(&mut self) -> Option<u32> {
        if self.next == 0 {
            return None;
        }
        let c = self.next;
        self.next = self.links.next(c);
        Some(c)
    }
}
