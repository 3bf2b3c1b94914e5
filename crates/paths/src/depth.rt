// How deep a path lies.
ghost use Rattle.std.specs.Prelude.{◌≡◌, ◌≤◌};

use crate::Facts;

impl Facts<'_> {
    ghost use Rattle.paths.specs.Depth.{depth_of};
    ghost use Rattle.paths.specs.Lent.{facts_of};

    // The number of keys on the path of r.
    pub fn depth_of(&self, r: u32) -> u32
        requires { (1 ≤ r) × (r ≤ self.now.used) }
        ensures { result ≡ depth_of (facts_of self.now) r }
    {
        self.upward(r).count() as u32 - 1
    }
}
