// Changes of a path that is there or may be added.
ghost use Rattle.std.specs.Prelude.{◌≡◌, ◌≤◌, ◌<◌};
ghost use Rattle.paths.specs.Find.{find_in};
ghost use Rattle.paths.specs.Lent.{facts_in, IsSameTable};

use crate::answer::Answer;
use crate::operation::{Change, Child};
use paths::FactsMut;

fn insert(facts: &mut FactsMut, p: u32, k: u32) -> Answer
    requires le_p { (1 ≤ p) × (p ≤ facts.old.used) }
    requires room { find_in (facts_in facts.old) p k ≡ 0 → facts.old.used < facts.old.records }
    ensures { IsSameTable facts.old facts.new }
{
    match facts.links().find_child(p, k) {
        Some(_) => Answer::Skipped,
        None => Answer::Number(facts.insert_child(p, k)),
    }
}

// The change, where there is room for the path.
fn make(facts: &mut FactsMut, change: Change, p: u32, k: u32) -> Answer
    requires le_p { (1 ≤ p) × (p ≤ facts.old.used) }
    requires room { find_in (facts_in facts.old) p k ≡ 0 → facts.old.used < facts.old.records }
    ensures { IsSameTable facts.old facts.new }
{
    match change {
        Change::InsertChild => return insert(facts, p, k),
        Change::EnsureChild => return Answer::Number(facts.ensure_child(p, k)),
        Change::GetOrCreate => return Answer::Number(facts.get_or_create(p, k)),
        Change::SetTname { name, confidence } => marks::set_tname(facts, p, k, name, confidence),
        Change::MarkNotBool => marks::mark_not_bool(facts, p, k),
        Change::InsertNotBool => marks::insert_not_bool(facts, p, k),
    }
    Answer::Done
}

pub fn change(facts: &mut FactsMut, change: Change, child: Child) -> Answer
    ensures { IsSameTable facts.old facts.new }
{
    let Child { parent, key } = child;
    if parent < 1 || facts.used < parent {
        return Answer::Skipped;
    }
    if facts.records - facts.used < facts.links().missing(parent, key) {
        return Answer::Skipped;
    }
    make(facts, change, parent, key)
}
