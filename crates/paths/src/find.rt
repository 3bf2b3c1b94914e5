// Looking a path up.
ghost use Rattle.std.specs.Prelude.{◌≡◌, ◌≤◌, IfSome};
ghost use Rattle.std.specs.Option.{unwrap_or};

use crate::{Facts, Links};
use limits::fields::SEEN;

impl Links<'_> {
    ghost use Rattle.facts.specs.State.{nodes};
    ghost use Rattle.paths.specs.Find.{find_in};
    ghost use Rattle.paths.specs.Adds.{missing};

    // The child of parent with that key: it stands at the first key of the chain that is not lower, or nowhere.
    pub fn find_child(&self, parent: u32, key: u32) -> Option<u32>
        requires { (1 ≤ parent) × (parent ≤ self.now.used) }
        ensures value { unwrap_or result 0 ≡ find_in (nodes self.now.table.now self.now.used) parent key }
        ensures used { IfSome result (λ c. (1 ≤ c) × (c ≤ self.now.used)) }
    {
        let spot = self.place(parent, key, 0);
        self.find_at(parent, key, spot)
    }

    // How many paths `ensure_child` would add, 0 or 1.
    pub fn missing(&self, parent: u32, key: u32) -> u32
        requires { (1 ≤ parent) × (parent ≤ self.now.used) }
        ensures { (result ≡ missing (nodes self.now.table.now self.now.used) parent key) × (result ≤ 1) }
    {
        match self.find_child(parent, key) {
            Some(_) => 0,
            None => 1,
        }
    }
}

impl Facts<'_> {
    ghost use Rattle.paths.specs.Find.{get_mut};
    ghost use Rattle.paths.specs.Lent.{facts_of};

    // The child of p with the key k, if it is seen.
    pub fn get_mut(&self, p: u32, k: u32) -> Option<u32>
        requires { (1 ≤ p) × (p ≤ self.now.used) }
        ensures value { unwrap_or result 0 ≡ get_mut (facts_of self.now) p k }
        ensures used { IfSome result (λ c. (1 ≤ c) × (c ≤ self.now.used)) }
    {
        let c = self.links().find_child(p, k)?;
        if self.field(c, SEEN) == 1 {
            Some(c)
        } else {
            None
        }
    }
}
