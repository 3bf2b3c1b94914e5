// Range hints of all facts: `clear_range_hints`, a recursive walk over child and next.
ghost use Rattle.std.specs.Prelude.{◌≡◌, ◌≤◌};
ghost use Rattle.paths.specs.Lent.{facts_in, Becomes, IsSameTable};
ghost use Rattle.marks.specs.Hints.{clear_range_hints};
ghost use Rattle.marks.specs.Dropping.{drop_range};
ghost use Rattle.marks.specs.Below.{ClearsBelow};

use crate::name::drop_name;
use limits::confidences::BY_RANGE;
use paths::FactsMut;

// Drops the name of record r if it is a range name.
fn drop_range(facts: &mut FactsMut, r: u32)
    requires { (1 ≤ r) × (r ≤ facts.old.used) }
    ensures { Becomes facts.old facts.new (drop_range (facts_in facts.old) r) }
{
    if facts.read().confidence(r) == BY_RANGE {
        drop_name(facts, r);
    }
}

// Clears record p and all below it. A child's number is higher than its parent's, so that fewer numbers are left above
// it. No `children`: an iterator would hold the facts that are written here.
fn clear_below(facts: &mut FactsMut, p: u32)
    requires { (1 ≤ p) × (p ≤ facts.old.used) }
    ensures clears_below { ClearsBelow (facts_in facts.old) p (facts_in facts.new) }
    ensures used_value { facts.new.used ≡ facts.old.used }
    ensures same { IsSameTable facts.old facts.new }
{
    drop_range(facts, p);
    let mut c = facts.read().child(p);
    while c != 0 {
        clear_below(facts, c);
        c = facts.read().next(c);
    }
}

// All facts are at the root or below it.
pub fn clear_range_hints(facts: &mut FactsMut)
    ensures { Becomes facts.old facts.new (clear_range_hints (facts_in facts.old)) }
{
    clear_below(facts, 1);
}
