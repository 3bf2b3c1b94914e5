// The first phase: range hints cleared.
ghost use Rattle.std.specs.Prelude.{◌≡◌};
ghost use Rattle.labels.specs.Operands.{is_arg};
ghost use Rattle.analyze.specs.Phases.{both, clear, compares_words, clear_operands, hints_of};

use analyze::Hints;
use labels::{Label, Step};
use opcode::{EQ, REVERT, clears_operands};
use operations::Operation;

// Is the label an argument's?
fn is_arg(label: Label) -> bool
    ensures { result ≡ is_arg label }
{
    matches!(label, Label::Arg(_))
}

// Does EQ compare two arguments? That blocks both: prior word comparisons rule out new range hints.
fn compares_words(step: Step) -> bool
    ensures { result ≡ compares_words step }
{
    (step.op == EQ) & is_arg(step.first.label) & is_arg(step.second.label)
}

fn clear_operand(label: Label, block: bool) -> Operation
    ensures { result ≡ clear label block }
{
    match label {
        Label::Arg(val) => Operation::ClearRangeHint(val.path, val.offset, block),
        _ => Operation::Nothing,
    }
}

fn both(first: Operation, second: Operation) -> Hints
    ensures { result ≡ both first second }
{
    Hints { first, second }
}

// At DIV, MOD, SUB, EXP, EQ, ISZERO, JUMPI and SLOAD. Comparing a validated word with a constant is its normal use.
#[tactic(auto, unfolding(analyze::specs::Phases::clear_operands))]
fn clear_operands(step: Step) -> Hints
    ensures { result ≡ clear_operands step }
{
    let block = compares_words(step);
    if clears_operands(step.op) & ((step.op != EQ) | block) {
        return both(
            clear_operand(step.first.label, block),
            clear_operand(step.second.label, block),
        );
    }
    both(Operation::Nothing, Operation::Nothing)
}

// The operands' hints, or all at a REVERT: an aborted decoder path does not establish a range type.
#[tactic(auto, unfolding(analyze::specs::Phases::hints_of))]
pub fn hints_of(active: bool, step: Step) -> Hints
    ensures { result ≡ hints_of active step }
{
    if (step.op == REVERT) & active {
        return both(Operation::ClearRangeHints, Operation::Nothing);
    }
    clear_operands(step)
}
