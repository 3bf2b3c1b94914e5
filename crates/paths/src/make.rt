// Making a path: the Rust's `get_or_create`.
ghost use Rattle.std.specs.Prelude.{◌≡◌, ◌<◌, ◌≤◌};
ghost use Rattle.paths.specs.Find.{find_in};
ghost use Rattle.paths.specs.Make.{ensure, get_or_create};
ghost use Rattle.paths.specs.Place.{Before};

use crate::FactsMut;

impl FactsMut<'_> {
    ghost use Rattle.paths.specs.Lent.{facts_in, Makes};

    // The child of parent with that key, which is added, unseen, if it is not there. It is looked for behind prev, a
    // child with a lower key, or from the first child on for 0.
    pub fn ensure_after(&mut self, parent: u32, key: u32, prev: u32) -> u32
        requires le_parent { (1 ≤ parent) × (parent ≤ self.old.used) }
        requires room { find_in (facts_in self.old) parent key ≡ 0 → self.old.used < self.old.records }
        requires before { Before self.old.table.now self.old.used parent key prev }
        ensures { Makes self.old self.new (ensure (facts_in self.old) parent key) result }
    {
        let links = self.links();
        let spot = links.place(parent, key, prev);
        match links.find_at(parent, key, spot) {
            Some(c) => c,
            None => self.insert_at(parent, key, spot),
        }
    }

    // The same from the first child on.
    pub fn ensure_child(&mut self, parent: u32, key: u32) -> u32
        requires le_parent { (1 ≤ parent) × (parent ≤ self.old.used) }
        requires room { find_in (facts_in self.old) parent key ≡ 0 → self.old.used < self.old.records }
        ensures { Makes self.old self.new (ensure (facts_in self.old) parent key) result }
    {
        self.ensure_after(parent, key, 0)
    }

    // `ensure_after`, and the child is made seen.
    pub fn get_or_create_after(&mut self, parent: u32, key: u32, prev: u32) -> u32
        requires le_parent { (1 ≤ parent) × (parent ≤ self.old.used) }
        requires room { find_in (facts_in self.old) parent key ≡ 0 → self.old.used < self.old.records }
        requires before { Before self.old.table.now self.old.used parent key prev }
        ensures { Makes self.old self.new (get_or_create (facts_in self.old) parent key) result }
    {
        let number = self.ensure_after(parent, key, prev);
        self.make_seen(number);
        number
    }

    // The same from the first child on.
    pub fn get_or_create(&mut self, parent: u32, key: u32) -> u32
        requires le_parent { (1 ≤ parent) × (parent ≤ self.old.used) }
        requires room { find_in (facts_in self.old) parent key ≡ 0 → self.old.used < self.old.records }
        ensures { Makes self.old self.new (get_or_create (facts_in self.old) parent key) result }
    {
        self.get_or_create_after(parent, key, 0)
    }
}
