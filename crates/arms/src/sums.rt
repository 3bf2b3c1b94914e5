// ADD.
ghost use Rattle.std.specs.Prelude.{◌≡◌, ◌+◌};
ghost use Rattle.word.specs.Kept.{kept_of};
ghost use Rattle.paths.specs.Lent.{facts_of};
ghost use Rattle.operations.specs.Asks.{IsUsed};
ghost use Rattle.analyze.specs.Sum.{with_added, winner, kept_label, add_both, is_less_one, zero_beside, add_constant, add_one};
ghost use Rattle.analyze.specs.Sum.{add};
ghost use Rattle.analyze.specs.Ready.{StepReaches};

use crate::plans::{and_stack, nothing};
use analyze::{OnStack, Plan};
use labels::{Choice, Label, Step, Val, choose, is_length};
use operations::Operation;
use paths::Facts;
use word::U256;
use word::compare::{is_max, is_zero};
use word::sum::add_kept;

// The label with another constant added.
fn with_added(val: Val, added: u32) -> Label
    ensures { result ≡ with_added val added }
{
    Label::Arg(Val {
        add_val: added,
        ..val
    })
}

// The top labelled with a sum that was kept.
fn kept_label(val: Val, sum: Option<u32>) -> OnStack
    ensures { result ≡ kept_label val sum }
{
    match sum {
        Some(added) => OnStack::Label(with_added(val, added)),
        None => OnStack::Keep,
    }
}

// The sum of two constants, if it is below 2^32.
#[tactic(auto, unfolding(word::specs::Kept::kept_of))]
fn add_values(a: u32, b: u32) -> Option<u32>
    ensures { result ≡ kept_of (a + b) }
{
    a.checked_add(b)
}

// The label with the longer path; at equal length the second.
#[tactic(auto, unfolding(analyze::specs::Sum::winner))]
fn longer(facts: &Facts, f: Val, g: Val) -> Val
    requires { IsUsed facts.now.used f.path × IsUsed facts.now.used g.path }
    ensures { result ≡ winner (facts_of facts.now) f g }
{
    if facts.depth_of(g.path) < facts.depth_of(f.path) {
        f
    } else {
        g
    }
}

// Both operands are arguments.
#[tactic(auto, unfolding(analyze::specs::Sum::add_both))]
fn add_both(facts: &Facts, f: Val, g: Val) -> Plan
    requires { IsUsed facts.now.used f.path × IsUsed facts.now.used g.path }
    ensures { result ≡ add_both (facts_of facts.now) f g }
{
    let top = longer(facts, f, g);
    and_stack(
        Operation::MarkNotBool(f.path, f.offset),
        Operation::MarkNotBool(g.path, g.offset),
        kept_label(top, add_values(f.add_val, g.add_val)),
    )
}

// Is it sub(-1), written as add(0xff..ff), of a length that is zero?
#[tactic(auto, unfolding(analyze::specs::Sum::is_less_one))]
fn is_less_one(val: Val, own: U256, other: U256) -> bool
    ensures { result ≡ is_less_one val own other }
{
    is_length(val) & (val.path != 1) & is_zero(own) & is_max(other)
}

// The word 0, beside the label of a sum that was kept.
fn zero_beside(val: Val, sum: Option<u32>) -> OnStack
    ensures { result ≡ zero_beside val sum }
{
    match sum {
        Some(added) => OnStack::WordLabel(0, with_added(val, added)),
        None => OnStack::Word(0),
    }
}

// The top after a constant is added.
#[tactic(auto, unfolding(analyze::specs::Sum::add_constant))]
fn add_constant(val: Val, own: U256, other: U256) -> OnStack
    ensures { result ≡ add_constant val own other }
{
    let sum = add_kept(other, val.add_val);
    if is_less_one(val, own, other) {
        return zero_beside(val, sum);
    }
    kept_label(val, sum)
}

// At most one operand is an argument.
fn add_one(choice: Option<Choice>) -> Plan
    ensures { result ≡ add_one choice }
{
    let Some(Choice { val, own, other }) = choice else {
        return nothing();
    };
    and_stack(
        Operation::MarkNotBool(val.path, val.offset),
        Operation::Nothing,
        add_constant(val, own, other.word),
    )
}

#[tactic(auto, unfolding(analyze::specs::Sum::add))]
pub fn add(facts: &Facts, step: Step) -> Plan
    requires { StepReaches facts.now.used step }
    ensures { result ≡ add (facts_of facts.now) step }
{
    match (step.first.label, step.second.label) {
        (Label::Arg(f), Label::Arg(g)) => add_both(facts, f, g),
        _ => add_one(choose(|_| true, step.first, step.second)),
    }
}
