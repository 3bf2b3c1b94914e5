// Lengths: MUL and SHL of one, and its comparisons.
ghost use Rattle.std.specs.Prelude.{◌≡◌, ◌*◌, ◌≤◌};
ghost use Rattle.std.specs.Option.{ForSome};
ghost use Rattle.limits.specs.Limits.{word_bytes, array_count_max};
ghost use Rattle.word.specs.Value.{value_of};
ghost use Rattle.paths.specs.Lent.{facts_of};
ghost use Rattle.operations.specs.Asks.{IsUsed};
ghost use Rattle.analyze.specs.Length.{mark_length, name_path, with_ones, multiplied, multiply, unless_range, mark_first};
ghost use Rattle.analyze.specs.Length.{mul};
ghost use Rattle.analyze.specs.Length.{bytes_shift, bytes_named, shl_of, shl, compares_length, length_compared, compare_with};
ghost use Rattle.analyze.specs.Length.{compare};
ghost use Rattle.analyze.specs.Ready.{LabelReaches, ChoiceReaches, StepReaches};
ghost use Rattle.word.specs.Multiplier.{multiplier_of};

use crate::plans::{and_stack, mark_and_name, nothing, one_operation, three_operations};
use analyze::{InMemory, OnStack, Plan};
use code::guard_failure_pc;
use labels::{Choice, Label, Step, Val, choose, is_length, is_unmasked_length};
use limits::WORD_BYTES;
use limits::codes::{BYTES, FIXED_BYTES, STRING};
use limits::confidences::{BY_BYTES, BY_THE_REST};
use marks::has_range_hint;
use opcode::LT;
use operations::Operation;
use paths::Facts;
use word::compare::equals_number;
use word::multiply::read_multiplier;
use word::power::power_of_two;
use word::sum::keep;
use word::{Multiplier, U256};

// The length marked, then the other operand's argument, and one operation more.
fn mark_length(path: u32, other: Label, more: Operation) -> Plan
    ensures { result ≡ mark_length path other more }
{
    let Label::Arg(w) = other else {
        return three_operations(Operation::MarkNotBool(path, 0), Operation::Nothing, more);
    };
    three_operations(
        Operation::MarkNotBool(path, 0),
        Operation::MarkNotBool(w.path, w.offset),
        more,
    )
}

// A name for a path itself, which is there.
fn name_path(facts: &Facts, path: u32, name: u32, confidence: u32) -> Operation
    requires { IsUsed facts.now.used path }
    ensures { result ≡ name_path (facts_of facts.now) path name confidence }
{
    let parent = facts.parent(path);
    let key = facts.key(path);
    Operation::SetTname(parent, key, name, confidence)
}

// The word 1 in each slot and entry that holds the length at the path, and the multiplier on top: the machine goes on
// as if the array had one element.
fn with_ones(plan: Plan, path: u32, word: u32) -> Plan
    ensures { result ≡ with_ones plan path word }
{
    Plan {
        stack: OnStack::Ones(path, word),
        memory: InMemory::Ones(path),
        ..plan
    }
}

// The multiplier of an array mark with that count.
fn multiplier_of(count: u32) -> u32
    requires { count ≤ array_count_max }
    ensures { result ≡ word_bytes * count }
{
    WORD_BYTES * count
}

// What a factor says of the path.
fn multiplied(facts: &Facts, path: u32, other: Label, factor: U256) -> Plan
    requires { IsUsed facts.now.used path }
    ensures { result ≡ multiplied (facts_of facts.now) path other (multiplier_of (value_of factor)) }
{
    match read_multiplier(factor) {
        Multiplier::One => mark_length(path, other, name_path(facts, path, BYTES, BY_BYTES)),
        Multiplier::Two => mark_length(path, other, name_path(facts, path, STRING, BY_THE_REST)),
        Multiplier::Array(count) => {
            let marked = mark_length(path, other, Operation::SetArray(path, count));
            with_ones(marked, path, multiplier_of(count))
        }
        Multiplier::Other => mark_length(path, other, Operation::Nothing),
    }
}

// The length at a path multiplied by a factor, beside the other operand's label.
#[tactic(auto, unfolding(analyze::specs::Length::multiply))]
fn multiply(facts: &Facts, path: u32, other: Label, factor: U256) -> Plan
    requires { IsUsed facts.now.used path }
    ensures { result ≡ multiply (facts_of facts.now) path other (value_of factor) }
{
    if path == 1 {
        return mark_length(path, other, Operation::Nothing);
    }
    multiplied(facts, path, other, factor)
}

// Marks it, unless it has a range name: a validated enum can be checked again, e.g. before a panic.
#[tactic(auto, unfolding(analyze::specs::Length::unless_range))]
fn unless_range(facts: &Facts, val: Val) -> Plan
    requires { IsUsed facts.now.used val.path }
    ensures { result ≡ unless_range (facts_of facts.now) val }
{
    if has_range_hint(facts, val.path, val.offset) {
        return nothing();
    }
    one_operation(Operation::MarkNotBool(val.path, val.offset))
}

// The general arm of LT, GT and MUL.
fn mark_first(facts: &Facts, choice: Option<Choice>) -> Plan
    requires { ChoiceReaches facts.now.used choice }
    ensures { result ≡ mark_first (facts_of facts.now) choice }
{
    let Some(Choice { val, .. }) = choice else {
        return nothing();
    };
    unless_range(facts, val)
}

#[tactic(auto, unfolding(analyze::specs::Length::mul))]
pub fn mul(facts: &Facts, step: Step) -> Plan
    requires { StepReaches facts.now.used step }
    ensures { result ≡ mul (facts_of facts.now) step }
{
    // A closure around `is_length`: the check takes no function of another crate by its name alone.
    match choose(|val| is_length(val), step.first, step.second) {
        Some(Choice { val, other, .. }) => { multiply(facts, val.path, other.label, other.word) }
        None => {
            let any = choose(|_| true, step.first, step.second);
            mark_first(facts, any)
        }
    }
}

// The bytes that a guarded shift leaves of a word, if it is such a check.
#[tactic(auto, unfolding(analyze::specs::Length::bytes_shift, word::specs::Kept::kept_of))]
fn bytes_shift(code: &[u8], pc: u32, shift: U256) -> Option<u32>
    ensures { result ≡ bytes_shift code.now pc (value_of shift) }
{
    guard_failure_pc(code, pc, true)?;
    let bits = keep(shift)?;
    if bits % 8 == 0 && 8 <= bits && bits <= 256 {
        Some(bits / 8)
    } else {
        None
    }
}

// An argument of the root shifted while the decoder is active: a check of its type.
fn bytes_named(val: Val, bytes: Option<u32>) -> Plan
    requires { ForSome bytes (λ n. n ≤ 32) }
    ensures { result ≡ bytes_named val bytes }
{
    match bytes {
        Some(bytes) => mark_and_name(val, FIXED_BYTES + bytes, BY_THE_REST),
        None => one_operation(Operation::MarkNotBool(val.path, val.offset)),
    }
}

#[tactic(auto, unfolding(analyze::specs::Length::shl, analyze::specs::Length::shl_of))]
pub fn shl(facts: &Facts, active: bool, code: &[u8], step: Step) -> Plan
    requires { StepReaches facts.now.used step }
    ensures { result ≡ shl (facts_of facts.now) active code.now step }
{
    let Label::Arg(val) = step.second.label else {
        return nothing();
    };
    let shift = step.first.word;
    if (val.path == 1) & active {
        return bytes_named(val, bytes_shift(code, step.pc, shift));
    }
    if !is_length(val) {
        return nothing();
    }
    multiply(facts, val.path, step.first.label, power_of_two(shift))
}

// Is it compared with 0, or with 31, as a string for storage is?
#[tactic(auto, unfolding(analyze::specs::Length::compares_length))]
fn compares_length(bound: U256) -> bool
    ensures { result ≡ compares_length (value_of bound) }
{
    equals_number(bound, 0) | equals_number(bound, 31)
}

fn length_compared(path: u32, bound: U256) -> Plan
    ensures { result ≡ length_compared path (value_of bound) }
{
    let marked = Operation::MarkNotBool(path, 0);
    if compares_length(bound) {
        return and_stack(marked, Operation::Nothing, OnStack::Word(1));
    }
    one_operation(marked)
}

// The length arm for that operand and bound, else the general arm.
#[tactic(auto, unfolding(analyze::specs::Length::compare_with))]
fn compare_with(facts: &Facts, label: Label, bound: U256, general: Option<Choice>) -> Plan
    requires { ChoiceReaches facts.now.used general }
    ensures { result ≡ compare_with (facts_of facts.now) label (value_of bound) general }
{
    let Label::Arg(val) = label else {
        return mark_first(facts, general);
    };
    if is_unmasked_length(val) {
        return length_compared(val.path, bound);
    }
    mark_first(facts, general)
}

// LT and GT, behind the range rule.
#[tactic(auto, unfolding(analyze::specs::Length::compare))]
pub fn compare(facts: &Facts, step: Step) -> Plan
    requires { StepReaches facts.now.used step }
    ensures { result ≡ compare (facts_of facts.now) step }
{
    let general = choose(|_| true, step.first, step.second);
    let (length, bound) = if step.op == LT {
        (step.second.label, step.first.word)
    } else {
        (step.first.label, step.second.word)
    };
    compare_with(facts, length, bound, general)
}
