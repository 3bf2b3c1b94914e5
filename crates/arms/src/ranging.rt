// The second phase: the range rule.
ghost use Rattle.std.specs.Prelude.{◌≡◌};
ghost use Rattle.analyze.specs.Phases.{names_range, comparison_of, range_rule, range_plan};

use crate::plans::{nothing, two_operations};
use analyze::{Comparison, Plan};
use code::is_empty_revert_guard;
use labels::{Label, Step, is_unmasked};
use limits::codes::UINT;
use limits::confidences::BY_RANGE;
use opcode::{GT, LT};
use operations::Operation;
use word::range::is_range_bound;

// Orients a strict comparison of an argument with a plain word as value < bound or value > bound.
#[tactic(auto, unfolding(analyze::specs::Phases::comparison_of))]
fn comparison(step: Step) -> Option<Comparison>
    ensures { result ≡ comparison_of step }
{
    match (step.first.label, step.second.label) {
        (Label::Arg(val), Label::Unlabelled) => Some(Comparison {
            val,
            bound: step.second.word,
            less_than: step.op == LT,
        }),
        (Label::Unlabelled, Label::Arg(val)) => Some(Comparison {
            val,
            bound: step.first.word,
            less_than: step.op == GT,
        }),
        _ => None,
    }
}

// Does the comparison name a range? Slot zero of a dynamic path may be its length: bounds on that describe the
// container, not a scalar argument.
#[tactic(auto, unfolding(analyze::specs::Phases::names_range))]
fn names_range(code: &[u8], pc: u32, compared: Comparison) -> bool
    ensures { result ≡ names_range code.now pc compared.val compared.bound compared.less_than }
{
    let Comparison {
        val,
        bound,
        less_than,
    } = compared;
    val.add_val == 0
        && is_unmasked(val.and_mask)
        && (val.offset != 0 || val.path == 1)
        && is_range_bound(bound, less_than)
        && is_empty_revert_guard(code, pc, less_than)
}

// Does the range rule apply?
#[tactic(auto, unfolding(analyze::specs::Phases::range_rule))]
pub fn range_rule(active: bool, code: &[u8], step: Step) -> bool
    ensures { result ≡ range_rule active code.now step }
{
    if !active {
        return false;
    }
    if (step.op != LT) & (step.op != GT) {
        return false;
    }
    let Some(compared) = comparison(step) else {
        return false;
    };
    names_range(code, step.pc, compared)
}

// What it does: Solidity validates enums this way, including two-member ones, and validates bools differently, so a
// bound of 1 is uint8 as well. The mark is set directly: `mark_not_bool` would drop the new name.
#[tactic(auto, unfolding(analyze::specs::Phases::range_plan))]
pub fn range_plan(step: Step) -> Plan
    ensures { result ≡ range_plan step }
{
    let Some(Comparison { val, .. }) = comparison(step) else {
        return nothing();
    };
    two_operations(
        Operation::SetTname(val.path, val.offset, UINT + 8, BY_RANGE),
        Operation::InsertNotBool(val.path, val.offset),
    )
}
