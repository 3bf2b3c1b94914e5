// Names and not-bool marks: `set_tname`, `mark_not_bool`, and the range rule's own mark.
ghost use Rattle.std.specs.Prelude.{◌≡◌, ◌+◌, ◌≤◌, ◌<◌};
ghost use Rattle.paths.specs.Find.{find_in};
ghost use Rattle.paths.specs.Lent.{facts_of, facts_in, Becomes, Grows};
ghost use Rattle.paths.specs.Place.{Place};
ghost use Rattle.marks.specs.Names.{drop_name, give_name, name_at, is_not_bool, drop_bool_at, set_tname, insert_not_bool};
ghost use Rattle.marks.specs.Names.{mark_not_bool};

use limits::codes::{BOOL, NO_NAME};
use limits::confidences::BY_RANGE;
use limits::fields::{CONFIDENCE, NAME, NOT_BOOL};
use paths::{Facts, FactsMut, Spot};

pub fn give_name(facts: &mut FactsMut, r: u32, name: u32, confidence: u32)
    requires { (1 ≤ r) × (r ≤ facts.old.used) }
    ensures { Becomes facts.old facts.new (give_name (facts_in facts.old) r name confidence) }
{
    facts.store(r, NAME, name);
    facts.store(r, CONFIDENCE, confidence);
}

pub fn drop_name(facts: &mut FactsMut, r: u32)
    requires { (1 ≤ r) × (r ≤ facts.old.used) }
    ensures { Becomes facts.old facts.new (drop_name (facts_in facts.old) r) }
{
    give_name(facts, r, NO_NAME, 0);
}

// The name at record r, unless it is blocked or the standing one is as sure.
fn name_at(facts: &mut FactsMut, r: u32, name: u32, confidence: u32)
    requires { (1 ≤ r) × (r ≤ facts.old.used) }
    ensures { Becomes facts.old facts.new (name_at (facts_in facts.old) r name confidence) }
{
    let read = facts.read();
    if (confidence == BY_RANGE) & (read.blocked(r) == 1) {
        return;
    }
    if (read.name(r) != NO_NAME) & (confidence <= read.confidence(r)) {
        return;
    }
    give_name(facts, r, name, confidence);
}

// Is there such a path, whose place in its chain is that one, and is it marked not-bool?
fn is_not_bool(facts: &Facts, p: u32, k: u32, spot: Spot) -> bool
    requires le_p { (1 ≤ p) × (p ≤ facts.now.used) }
    requires place { Place facts.now.table.now facts.now.used p k spot.prev spot.next }
    ensures { result ≡ is_not_bool (facts_of facts.now) p k }
{
    match facts.links().find_at(p, k, spot) {
        Some(c) => facts.is_not_bool(c),
        None => false,
    }
}

// Sets a name at the path of p with the key k at its end. The chain is walked once.
pub fn set_tname(facts: &mut FactsMut, p: u32, k: u32, name: u32, confidence: u32)
    requires le_p { (1 ≤ p) × (p ≤ facts.old.used) }
    requires room { find_in (facts_in facts.old) p k ≡ 0 → facts.old.used < facts.old.records }
    ensures grows { Grows facts.old facts.new (set_tname (facts_in facts.old) p k name confidence) }
    ensures one_more { facts.new.used ≤ facts.old.used + 1 }
{
    let spot = facts.links().place(p, k, 0);
    if ((name == BOOL) | (confidence == BY_RANGE)) && is_not_bool(&facts.read(), p, k, spot) {
        return;
    }
    let r = facts.get_or_create_after(p, k, spot.prev);
    name_at(facts, r, name, confidence);
}

// Marks the path not-bool; it is added, unseen, if it is not there. No name is dropped.
pub fn insert_not_bool(facts: &mut FactsMut, p: u32, k: u32)
    requires le_p { (1 ≤ p) × (p ≤ facts.old.used) }
    requires room { find_in (facts_in facts.old) p k ≡ 0 → facts.old.used < facts.old.records }
    ensures grows { Grows facts.old facts.new (insert_not_bool (facts_in facts.old) p k) }
    ensures one_more { facts.new.used ≤ facts.old.used + 1 }
{
    let path = facts.ensure_child(p, k);
    facts.store(path, NOT_BOOL, 1);
}

// A bool or a range name dropped at record r.
fn drop_bool(facts: &mut FactsMut, r: u32)
    requires { (1 ≤ r) × (r ≤ facts.old.used) }
    ensures { Becomes facts.old facts.new (drop_bool_at (facts_in facts.old) r) }
{
    let read = facts.read();
    if (read.name(r) == BOOL) | (read.confidence(r) == BY_RANGE) {
        drop_name(facts, r);
    }
}

// Marks the path not-bool, and drops a bool or a range name there. The path is made first, so that it is looked up
// once: a new one is unseen.
pub fn mark_not_bool(facts: &mut FactsMut, p: u32, k: u32)
    requires le_p { (1 ≤ p) × (p ≤ facts.old.used) }
    requires room { find_in (facts_in facts.old) p k ≡ 0 → facts.old.used < facts.old.records }
    ensures grows { Grows facts.old facts.new (mark_not_bool (facts_in facts.old) p k) }
    ensures one_more { facts.new.used ≤ facts.old.used + 1 }
{
    let r = facts.ensure_child(p, k);
    if facts.read().is_seen(r) {
        drop_bool(facts, r);
    }
    facts.store(r, NOT_BOOL, 1);
}
