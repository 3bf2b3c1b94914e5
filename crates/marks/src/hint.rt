// Range hints of one path: `clear_range_hint`, `has_range_hint`.
ghost use Rattle.std.specs.Prelude.{◌≡◌, ◌≤◌};
ghost use Rattle.paths.specs.Lent.{facts_of, facts_in, Becomes};
ghost use Rattle.marks.specs.Hints.{clear_at, clear_range_hint, has_range_hint};

use crate::name::drop_name;
use limits::confidences::BY_RANGE;
use limits::fields::BLOCKED;
use paths::{Facts, FactsMut};

// Clears the hint of record r, and blocks it for good if asked.
fn clear_at(facts: &mut FactsMut, r: u32, block: bool)
    requires { (1 ≤ r) × (r ≤ facts.old.used) }
    ensures { Becomes facts.old facts.new (clear_at (facts_in facts.old) r block) }
{
    let read = facts.read();
    let is_range = read.confidence(r) == BY_RANGE;
    let blocked = read.blocked(r);
    facts.store(r, BLOCKED, blocked.max(u32::from(block)));
    if is_range {
        drop_name(facts, r);
    }
}

pub fn clear_range_hint(facts: &mut FactsMut, p: u32, k: u32, block: bool)
    requires { (1 ≤ p) × (p ≤ facts.old.used) }
    ensures { Becomes facts.old facts.new (clear_range_hint (facts_in facts.old) p k block) }
{
    if let Some(c) = facts.read().get_mut(p, k) {
        clear_at(facts, c, block);
    }
}

pub fn has_range_hint(facts: &Facts, p: u32, k: u32) -> bool
    requires { (1 ≤ p) × (p ≤ facts.now.used) }
    ensures { result ≡ has_range_hint (facts_of facts.now) p k }
{
    match facts.get_mut(p, k) {
        Some(c) => facts.confidence(c) == BY_RANGE,
        None => false,
    }
}
