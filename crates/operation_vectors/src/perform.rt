// One operation, if its arguments are in range and there is room.
ghost use Rattle.std.specs.Prelude.{◌≡◌};
ghost use Rattle.paths.specs.Lent.{IsSameTable};

use crate::answer::Answer;
use crate::ask::ask;
use crate::change::change;
use crate::operation::{Child, Operation, Visit};
use paths::{Facts, FactsMut};

// The most words of a fill.
const WORDS_MAX: u32 = 4096;

fn clear(facts: &mut FactsMut, child: Child, block: u32) -> Answer
    ensures used { facts.new.used ≡ facts.old.used }
    ensures same { IsSameTable facts.old facts.new }
{
    let Child { parent, key } = child;
    if parent < 1 || facts.used < parent || 1 < block {
        return Answer::Skipped;
    }
    marks::clear_range_hint(facts, parent, key, block == 1);
    Answer::Done
}

fn visit(facts: &mut FactsMut, visit: Visit, r: u32) -> Answer
    ensures used { facts.new.used ≡ facts.old.used }
    ensures same { IsSameTable facts.old facts.new }
{
    if r < 1 || facts.used < r {
        return Answer::Skipped;
    }
    match visit {
        Visit::MakeSeen => facts.make_seen(r),
        Visit::SetDynamic { count } => kinds::set_dynamic(facts, r, count),
        Visit::SetArray { count } => kinds::set_array(facts, r, count),
        Visit::ArraysInPath => return Answer::Number(kinds::arrays_in_path(&facts.read(), r)),
    }
    Answer::Done
}

fn fill(facts: &mut FactsMut, words: u32) -> Answer
    ensures { IsSameTable facts.old facts.new }
{
    if WORDS_MAX < words || facts.records - facts.used < kinds::fill_missing(&facts.read(), words) {
        return Answer::Skipped;
    }
    kinds::fill(facts, words);
    Answer::Done
}

fn fill_missing(facts: &Facts, words: u32) -> Answer {
    if WORDS_MAX < words {
        return Answer::Skipped;
    }
    Answer::Number(kinds::fill_missing(facts, words))
}

pub fn perform(facts: &mut FactsMut, operation: Operation) -> Answer
    ensures { IsSameTable facts.old facts.new }
{
    match operation {
        Operation::Ask(question, child) => ask(&facts.read(), question, child),
        Operation::Change(what, child) => change(facts, what, child),
        Operation::ClearRangeHint(child, block) => clear(facts, child, block),
        Operation::Visit(what, record) => visit(facts, what, record),
        Operation::Fill(words) => fill(facts, words),
        Operation::FillMissing(words) => fill_missing(&facts.read(), words),
    }
}
