// A path up to the root.
ghost use Rattle.std.specs.Prelude.{◌≤◌};

use crate::Facts;

// Gives a record and each that its path continues, up to the root. next is 0 behind the root.
#[derive(Drop)]
pub struct Upward<'a> {
    facts: Facts<'a>,
    next: u32,
    ghost within: { next ≤ facts.used },
}

impl<'a> Facts<'a> {
    ghost use Rattle.std.specs.Prelude.{◌≡◌};
    ghost use Rattle.paths.specs.Lent.{facts_of};
    ghost use Rattle.paths.specs.Walking.{upward, upward_left};

    pub fn upward(&self, r: u32) -> Upward<'a>
        requires { r ≤ self.now.used }
        ensures { upward_left result ≡ upward (facts_of self.now) r }
    {
        Upward {
            facts: *self,
            next: r,
        }
    }
}

impl Iterator for Upward<'_> {
    ghost use Rattle.std.specs.Iterator.{YieldsFirst, item_count};
    ghost use Rattle.paths.specs.Walking.{upward_left};

    type Item = u32;

    ghost next_gives = { YieldsFirst upward_left };

    ghost remaining = { item_count upward_left };

    fn next(&mut self) -> Option<u32> {
        if self.next == 0 {
            return None;
        }
        let r = self.next;
        self.next = self.facts.parent(r);
        Some(r)
    }
}
