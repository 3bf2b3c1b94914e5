// Adding a path.
ghost use Rattle.std.specs.Prelude.{◌≡◌, ◌+◌, ◌<◌, ◌≤◌, [], ◌∷◌, ◌++◌, IfSome};
ghost use Rattle.std.specs.Option.{unwrap_or};
ghost use Rattle.facts.specs.State.{nodes, bare};
ghost use Rattle.paths.specs.Shape.{Shaped};
ghost use Rattle.paths.specs.Find.{find_in};
ghost use Rattle.paths.specs.Place.{Before, Place};
ghost use Rattle.paths.specs.Represents.{Represents};

use crate::{FactsMut, Links};
use facts::set_field;
use limits::fields::{CHILD, KEY, NEXT, PARENT};

// A place in a chain: behind prev, 0 for the first, and at next, 0 for the last.
#[derive(Clone, Copy)]
pub struct Spot {
    pub prev: u32,
    pub next: u32,
}

// Adds a child with that key to parent at its place, as the next record, and returns its number.
fn link_in(table: &mut [u32], n: u32, used: u32, parent: u32, key: u32, spot: Spot) -> u32
    requires shaped { Shaped table.old used n }
    requires le_parent { (1 ≤ parent) × (parent ≤ used) × (used < n) }
    requires key_value { find_in (nodes table.old used) parent key ≡ 0 }
    requires place { Place table.old used parent key spot.prev spot.next }
    ensures value { result ≡ used + 1 }
    ensures represents { Represents table.new (used + 1) n
        (nodes table.old used ++ bare parent key ∷ []) }
{
    let new = used + 1;
    set_field(table, new, KEY, key);
    set_field(table, new, PARENT, parent);
    set_field(table, new, NEXT, spot.next);
    if spot.prev == 0 {
        set_field(table, parent, CHILD, new);
        return new;
    }
    set_field(table, spot.prev, NEXT, new);
    new
}

impl Links<'_> {
    // Where a key stands or goes among the children of parent, looked for behind one with a lower key, or from the
    // first on for 0. A record often stands in the chain right behind the number before it: where it does, the walk
    // counts on instead of waiting for the number that it loads.
    fn place_behind(&self, parent: u32, key: u32, after: u32) -> Spot
        requires le_parent { (1 ≤ parent) × (parent ≤ self.now.used) }
        requires before { Before self.now.table.now self.now.used parent key after }
        ensures { Place self.now.table.now self.now.used parent key result.prev result.next }
    {
        let mut prev = after;
        let mut next = self.behind(parent, after);
        while next != 0 {
            let mut c = next;
            loop {
                if key <= self.field(c, KEY) {
                    return Spot { prev, next: c };
                }
                prev = c;
                let follow = c as usize + 1;
                next = self.next(c);
                if next as usize != follow {
                    break;
                }
                c = follow as u32;
            }
        }
        Spot { prev, next: 0 }
    }

    // The same, where 0 stands for no such child, and the walk begins where it does best. One that goes on from a child
    // stays with its chain: the walks of a fill are one walk.
    pub fn place(&self, parent: u32, key: u32, after: u32) -> Spot
        requires le_parent { (1 ≤ parent) × (parent ≤ self.now.used) }
        requires before { Before self.now.table.now self.now.used parent key after }
        ensures { Place self.now.table.now self.now.used parent key result.prev result.next }
    {
        if after != 0 {
            return self.place_behind(parent, key, after);
        }
        let near = self.start(parent, key);
        self.place_behind(parent, key, near)
    }

    // The child of parent with that key, if it stands at its place.
    pub fn find_at(&self, parent: u32, key: u32, spot: Spot) -> Option<u32>
        requires le_parent { 1 ≤ parent }
        requires place { Place self.now.table.now self.now.used parent key spot.prev spot.next }
        ensures value { unwrap_or result 0 ≡ find_in (nodes self.now.table.now self.now.used) parent key }
        ensures used { IfSome result (λ c. (1 ≤ c) × (c ≤ self.now.used)) }
    {
        if spot.next == 0 {
            return None;
        }
        if self.field(spot.next, KEY) != key {
            return None;
        }
        Some(spot.next)
    }
}

impl FactsMut<'_> {
    ghost use Rattle.paths.specs.Lent.{facts_in, Grows};

    // Adds a child with that key to parent at its place, as the next record, and returns its number.
    pub fn insert_at(&mut self, parent: u32, key: u32, spot: Spot) -> u32
        requires le_parent { (1 ≤ parent) × (parent ≤ self.old.used) × (self.old.used < self.old.records) }
        requires key_value { find_in (facts_in self.old) parent key ≡ 0 }
        requires place { Place self.old.table.now self.old.used parent key spot.prev spot.next }
        ensures value { (result ≡ self.old.used + 1) × (self.new.used ≡ self.old.used + 1) }
        ensures grows { Grows self.old self.new (facts_in self.old ++ bare parent key ∷ []) }
    {
        let new = link_in(self.table, self.records, self.used, parent, key, spot);
        self.used = new;
        new
    }

    // The same, where the place is still to be found.
    pub fn insert_child(&mut self, parent: u32, key: u32) -> u32
        requires le_parent { (1 ≤ parent) × (parent ≤ self.old.used) × (self.old.used < self.old.records) }
        requires key_value { find_in (facts_in self.old) parent key ≡ 0 }
        ensures value { (result ≡ self.old.used + 1) × (self.new.used ≡ self.old.used + 1) }
        ensures grows { Grows self.old self.new (facts_in self.old ++ bare parent key ∷ []) }
    {
        let spot = self.links().place(parent, key, 0);
        self.insert_at(parent, key, spot)
    }
}
