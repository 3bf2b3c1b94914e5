// Is there a dynamic or an array at a path or below it: `has_dynamic`, a recursive walk over child and next.
ghost use Rattle.std.specs.Prelude.{◌≡◌, ◌≤◌};
ghost use Rattle.paths.specs.Lent.{facts_of};
ghost use Rattle.kinds.specs.Kinds.{has_dynamic};

use paths::Facts;

// A child's number is higher than its parent's, so that fewer numbers are left above it.
pub fn has_dynamic(facts: &Facts, r: u32) -> bool
    requires { (1 ≤ r) × (r ≤ facts.now.used) }
    ensures { result ≡ has_dynamic (facts_of facts.now) r }
{
    if !facts.is_seen(r) {
        return false;
    }
    if facts.kind(r) != 0 {
        return true;
    }
    for c in facts.children(r) {
        if has_dynamic(facts, c) {
            return true;
        }
    }
    false
}
