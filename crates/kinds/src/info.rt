// Kinds and counts: `set_info`, `array_in_path`.
ghost use Rattle.std.specs.Prelude.{◌≡◌, ◌≤◌};
ghost use Rattle.paths.specs.Lent.{facts_of, facts_in, Becomes};
ghost use Rattle.kinds.specs.Kinds.{give_kind, dynamic_at, array_at, set_dynamic, set_array, arrays_in_path};

use limits::fields::{COUNT, KIND};
use limits::{KIND_ARRAY, KIND_DYNAMIC};
use paths::{Facts, FactsMut};

fn give_kind(facts: &mut FactsMut, r: u32, kind: u32, count: u32)
    requires { (1 ≤ r) × (r ≤ facts.old.used) }
    ensures { Becomes facts.old facts.new (give_kind (facts_in facts.old) r kind count) }
{
    facts.store(r, KIND, kind);
    facts.store(r, COUNT, count);
}

fn dynamic_at(facts: &mut FactsMut, r: u32, count: u32)
    requires { (1 ≤ r) × (r ≤ facts.old.used) }
    ensures { Becomes facts.old facts.new (dynamic_at (facts_in facts.old) r count) }
{
    let read = facts.read();
    let kind = read.kind(r);
    if kind == KIND_ARRAY {
        return;
    }
    if (kind == KIND_DYNAMIC) & (count < read.count(r)) {
        return;
    }
    give_kind(facts, r, KIND_DYNAMIC, count);
}

fn array_at(facts: &mut FactsMut, r: u32, count: u32)
    requires { (1 ≤ r) × (r ≤ facts.old.used) }
    ensures { Becomes facts.old facts.new (array_at (facts_in facts.old) r count) }
{
    let read = facts.read();
    if (read.kind(r) == KIND_ARRAY) & (count < read.count(r)) {
        return;
    }
    give_kind(facts, r, KIND_ARRAY, count);
}

// `set_info` with Dynamic(count): the path is made seen first; the root has no kind.
pub fn set_dynamic(facts: &mut FactsMut, r: u32, count: u32)
    requires { (1 ≤ r) × (r ≤ facts.old.used) }
    ensures { Becomes facts.old facts.new (set_dynamic (facts_in facts.old) r count) }
{
    if r == 1 {
        return;
    }
    facts.make_seen(r);
    dynamic_at(facts, r, count);
}

// `set_info` with Array(count). One function for both would take which kind it is and promise by cases: no plainer.
pub fn set_array(facts: &mut FactsMut, r: u32, count: u32)
    requires { (1 ≤ r) × (r ≤ facts.old.used) }
    ensures { Becomes facts.old facts.new (set_array (facts_in facts.old) r count) }
{
    if r == 1 {
        return;
    }
    facts.make_seen(r);
    array_at(facts, r, count);
}

// How many arrays stand on the path of r, itself included.
pub fn arrays_in_path(facts: &Facts, r: u32) -> u32
    requires { (1 ≤ r) × (r ≤ facts.now.used) }
    ensures { result ≡ arrays_in_path (facts_of facts.now) r }
{
    let mut arrays: u32 = 0;
    for c in facts.upward(r) {
        if facts.kind(c) == KIND_ARRAY {
            arrays += 1;
        }
    }
    arrays
}
