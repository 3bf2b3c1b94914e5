// CALLDATALOAD and CALLDATACOPY.
ghost use Rattle.std.specs.Prelude.{◌≡◌, ◌≤◌, true};
ghost use Rattle.limits.specs.Limits.{records_max};
ghost use Rattle.word.specs.Value.{value_of};
ghost use Rattle.paths.specs.Lent.{facts_of};
ghost use Rattle.operations.specs.Asks.{IsUsed};
ghost use Rattle.analyze.specs.Load.{is_whole_word, new_offset, name_copied, followed, labelled_load, found, unlabelled_load};
ghost use Rattle.analyze.specs.Load.{load};
ghost use Rattle.analyze.specs.Ready.{StepReaches};

use crate::plans::{and_memory, and_stack, nothing};
use analyze::{InMemory, OnStack, Plan, loaded_arg};
use kinds::arrays_in_path;
use labels::{Label, Step, Val};
use limits::codes::BYTES;
use limits::confidences::BY_BYTES;
use limits::{LOAD_MAX, SELECTOR_BYTES, WORD_BYTES};
use opcode::CALLDATALOAD;
use operations::Operation;
use paths::Facts;
use word::U256;
use word::sum::keep;

// Is it behind the selector, at a whole word?
#[tactic(auto, unfolding(analyze::specs::Load::is_whole_word))]
fn is_whole_word(added: u32) -> bool
    ensures { result ≡ is_whole_word added }
{
    added >= SELECTOR_BYTES && (added - SELECTOR_BYTES) % WORD_BYTES == 0
}

// The offset from the full path: a word is taken off for each array on the label's path, whose length stands before its
// elements.
#[tactic(auto, unfolding(analyze::specs::Load::new_offset))]
fn new_offset(facts: &Facts, val: Val) -> u32
    requires ready { IsUsed facts.now.used val.path }
    requires small { facts.now.records ≤ records_max }
    requires add_val_value { is_whole_word val.add_val ≡ true }
    ensures { result ≡ new_offset (facts_of facts.now) val }
{
    let behind = val.add_val - SELECTOR_BYTES;
    if behind == 0 {
        return behind;
    }
    let off = WORD_BYTES * arrays_in_path(facts, val.path);
    if behind < off {
        return behind;
    }
    behind - off
}

// What is copied to the entry that was picked is bytes.
fn name_copied(pick: u32, val: Val) -> Operation
    ensures { result ≡ name_copied pick val }
{
    if pick == 0 {
        return Operation::Nothing;
    }
    Operation::SetTname(val.path, val.offset, BYTES, BY_BYTES)
}

// The full path is dynamic, and what was loaded is labelled with it and the new offset.
fn followed(step: Step, val: Val, offset: u32) -> Plan
    ensures { result ≡ followed step val offset }
{
    let follow = Operation::SetDynamic(val.path, val.offset, offset / WORD_BYTES);
    if step.op == CALLDATALOAD {
        return and_stack(follow, Operation::Nothing, OnStack::Loaded(offset));
    }
    and_memory(
        follow,
        name_copied(step.pick, val),
        InMemory::Loaded(step.pick, offset),
    )
}

#[tactic(auto, unfolding(analyze::specs::Load::labelled_load))]
fn labelled_load(facts: &Facts, step: Step, val: Val) -> Plan
    requires ready { IsUsed facts.now.used val.path }
    requires small { facts.now.records ≤ records_max }
    ensures { result ≡ labelled_load (facts_of facts.now) step val }
{
    if is_whole_word(val.add_val) {
        return followed(step, val, new_offset(facts, val));
    }
    nothing()
}

// The argument at a key of the root is known, and what was loaded is labelled with it.
fn found(step: Step, key: u32) -> Plan
    ensures { result ≡ found step key }
{
    let known = Operation::GetOrCreate(1, key);
    let label = loaded_arg(key, 1);
    if step.op == CALLDATALOAD {
        return and_stack(known, Operation::Nothing, OnStack::Label(label));
    }
    and_memory(known, Operation::Nothing, InMemory::Label(step.pick, label))
}

#[tactic(auto, unfolding(analyze::specs::Load::unlabelled_load, analyze::specs::Load::is_followed, word::specs::Kept::kept_of))]
fn unlabelled_load(step: Step, word: U256) -> Plan
    ensures { result ≡ unlabelled_load step (value_of word) }
{
    let Some(offset) = keep(word) else {
        return nothing();
    };
    if offset < SELECTOR_BYTES || LOAD_MAX < offset {
        return nothing();
    }
    found(step, offset - SELECTOR_BYTES)
}

#[tactic(auto, unfolding(analyze::specs::Load::load))]
pub fn load(facts: &Facts, step: Step) -> Plan
    requires reaches { StepReaches facts.now.used step }
    requires small { facts.now.records ≤ records_max }
    ensures { result ≡ load (facts_of facts.now) step }
{
    match step.first.label {
        Label::Arg(val) => labelled_load(facts, step, val),
        _ => unlabelled_load(step, step.first.word),
    }
}
