// Making a path seen.
ghost use Rattle.std.specs.Prelude.{◌≤◌};

use crate::FactsMut;
use limits::fields::{PARENT, SEEN};

impl FactsMut<'_> {
    ghost use Rattle.paths.specs.Make.{make_seen};
    ghost use Rattle.paths.specs.Lent.{facts_in, Becomes};

    // Makes record r seen, and each that its path continues, up to the root. No `upward`: an iterator would hold the
    // facts that are written here.
    pub fn make_seen(&mut self, r: u32)
        requires { (1 ≤ r) × (r ≤ self.old.used) }
        ensures { Becomes self.old self.new (make_seen (facts_in self.old) r) }
    {
        let mut c = r;
        while c != 0 {
            let up = self.read().field(c, PARENT);
            self.store(c, SEEN, 1);
            c = up;
        }
    }
}
