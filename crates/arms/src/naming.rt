// The arms that name an argument; at most the label of the top changes too.
ghost use Rattle.std.specs.Prelude.{◌≡◌};
ghost use Rattle.word.specs.Value.{value_of};
ghost use Rattle.analyze.specs.Plan.{label_top};
ghost use Rattle.analyze.specs.Name.{call, mstore8, width_name, name_if, shr, signed, with_mask, masked, and};
ghost use Rattle.analyze.specs.Name.{eq_masked, eq_both, eq, zero_tested, is_zero, sign_extend, byte, mload};

use crate::plans::{and_stack, mark_and_name, nothing, one_operation};
use analyze::{OnStack, Plan};
use code::{guard_failure_pc, is_division_check};
use labels::{Choice, Label, Step, Val, choose, is_unmasked, same_arg};
use limits::codes::{ADDRESS, BOOL, FIXED_BYTES, INT, NO_NAME, UINT};
use limits::confidences::{BY_AND_OR_ISZERO, BY_BYTE, BY_MSTORE8, BY_SDIV_OR_SMOD, BY_THE_REST};
use limits::{ADDRESS_BITS, WORD_BYTES};
use mask::and_mask_to_type;
use operations::Operation;
use word::U256;
use word::sum::keep;

// CALL, CALLCODE, DELEGATECALL, STATICCALL: the first operand is an address.
#[tactic(auto, unfolding(analyze::specs::Name::call))]
pub fn call(step: Step) -> Plan
    ensures { result ≡ call step }
{
    let Label::Arg(val) = step.first.label else {
        return nothing();
    };
    mark_and_name(val, ADDRESS, BY_THE_REST)
}

// MSTORE8: the first operand is a byte.
#[tactic(auto, unfolding(analyze::specs::Name::mstore8))]
pub fn mstore8(step: Step) -> Plan
    ensures { result ≡ mstore8 step }
{
    let Label::Arg(val) = step.first.label else {
        return nothing();
    };
    mark_and_name(val, UINT + 8, BY_MSTORE8)
}

// The name that a guarded SHR by a width gives, NO_NAME for none.
#[tactic(auto, unfolding(analyze::specs::Name::width_name, word::specs::Kept::kept_of))]
fn width_name(width: U256) -> u32
    ensures { result ≡ width_name (value_of width) }
{
    match keep(width) {
        Some(1) => BOOL,
        Some(ADDRESS_BITS) => ADDRESS,
        Some(w) if w % 8 == 0 && 1 <= w && w <= 255 => UINT + w,
        _ => NO_NAME,
    }
}

// A name, if it is one.
fn name_if(val: Val, name: u32, confidence: u32) -> Plan
    ensures { result ≡ name_if val name confidence }
{
    if name == NO_NAME {
        return nothing();
    }
    one_operation(Operation::SetTname(val.path, val.offset, name, confidence))
}

// SHR before a guard: Vyper validates narrow scalars by rejecting non-zero high bits.
#[tactic(auto, unfolding(analyze::specs::Name::shr))]
pub fn shr(active: bool, code: &[u8], step: Step) -> Plan
    ensures { result ≡ shr active code.now step }
{
    let Label::Arg(val) = step.second.label else {
        return nothing();
    };
    if !active {
        return nothing();
    }
    if guard_failure_pc(code, step.pc, true).is_none() {
        return nothing();
    }
    name_if(val, width_name(step.first.word), BY_THE_REST)
}

// SDIV and SMOD: the first operand that is an argument is signed.
#[tactic(auto, unfolding(analyze::specs::Name::signed))]
pub fn signed(step: Step) -> Plan
    ensures { result ≡ signed step }
{
    let Some(Choice { val, .. }) = choose(|_| true, step.first, step.second) else {
        return nothing();
    };
    mark_and_name(val, INT + 256, BY_SDIV_OR_SMOD)
}

// The label with that mask.
fn with_mask(val: Val, mask: U256) -> Label
    ensures { result ≡ with_mask val mask }
{
    Label::Arg(Val {
        and_mask: Some(mask),
        ..val
    })
}

// An argument under a mask that gives that name.
fn masked(val: Val, mask: U256, name: u32) -> Plan
    ensures { result ≡ masked val mask name }
{
    if name == NO_NAME {
        return one_operation(Operation::MarkNotBool(val.path, val.offset));
    }
    and_stack(
        Operation::MarkNotBool(val.path, val.offset),
        Operation::SetTname(val.path, val.offset, name, BY_AND_OR_ISZERO),
        OnStack::Label(with_mask(val, mask)),
    )
}

#[tactic(auto, unfolding(analyze::specs::Name::and))]
pub fn and(step: Step) -> Plan
    ensures { result ≡ and step }
{
    let Some(Choice { val, other, .. }) = choose(
        |val| is_unmasked(val.and_mask),
        step.first,
        step.second,
    ) else {
        return nothing();
    };
    masked(val, other.word, and_mask_to_type(other.word))
}

// EQ of v and of w, which is v masked.
#[tactic(auto, unfolding(analyze::specs::Name::eq_masked))]
fn eq_masked(v: Val, w: Val, mask: Option<U256>) -> Plan
    ensures { result ≡ eq_masked v w mask }
{
    let Some(m) = mask else {
        return nothing();
    };
    if !same_arg(v, w) {
        return nothing();
    }
    name_if(v, and_mask_to_type(m), BY_THE_REST)
}

// The masked one may stand first or second.
#[tactic(auto, unfolding(analyze::specs::Name::eq_both))]
fn eq_both(v: Val, w: Val) -> Plan
    ensures { result ≡ eq_both v w }
{
    if is_unmasked(v.and_mask) {
        eq_masked(v, w, w.and_mask)
    } else if is_unmasked(w.and_mask) {
        eq_masked(w, v, v.and_mask)
    } else {
        nothing()
    }
}

// EQ of an argument and the same one masked: the mask's type.
#[tactic(auto, unfolding(analyze::specs::Name::eq))]
pub fn eq(step: Step) -> Plan
    ensures { result ≡ eq step }
{
    match (step.first.label, step.second.label) {
        (Label::Arg(v), Label::Arg(w)) => eq_both(v, w),
        _ => nothing(),
    }
}

// The top has a new label, and nothing else is done.
fn label_top(label: Label) -> Plan
    ensures { result ≡ label_top label }
{
    and_stack(
        Operation::Nothing,
        Operation::Nothing,
        OnStack::Label(label),
    )
}

// A double ISZERO is a bool's check, unless it is the one before a division.
#[tactic(auto, unfolding(analyze::specs::Name::is_zero))]
pub fn is_zero(code: &[u8], step: Step) -> Plan
    ensures { result ≡ is_zero code.now step }
{
    match step.first.label {
        Label::Arg(val) => label_top(Label::IsZeroResult(val)),
        Label::IsZeroResult(val) => {
            if is_division_check(code, step.pc) {
                nothing()
            } else {
                one_operation(Operation::SetTname(val.path, val.offset, BOOL, BY_AND_OR_ISZERO))
            }
        }
        Label::Unlabelled | Label::CallData => nothing(),
    }
}

// SIGNEXTEND: int of one byte more than the first operand says.
#[tactic(auto, unfolding(analyze::specs::Name::sign_extend, word::specs::Kept::kept_of))]
pub fn sign_extend(step: Step) -> Plan
    ensures { result ≡ sign_extend step }
{
    let Label::Arg(val) = step.second.label else {
        return nothing();
    };
    let Some(k) = keep(step.first.word) else {
        return nothing();
    };
    if WORD_BYTES <= k {
        return nothing();
    }
    one_operation(Operation::SetTname(val.path, val.offset, INT + (k + 1) * 8, BY_THE_REST))
}

// BYTE: fixed bytes of a whole word.
#[tactic(auto, unfolding(analyze::specs::Name::byte))]
pub fn byte(step: Step) -> Plan
    ensures { result ≡ byte step }
{
    let Label::Arg(val) = step.second.label else {
        return nothing();
    };
    one_operation(Operation::SetTname(val.path, val.offset, FIXED_BYTES + 32, BY_BYTE))
}

// MLOAD of a word that is an argument.
#[tactic(auto, unfolding(analyze::specs::Name::mload))]
pub fn mload(step: Step) -> Plan
    ensures { result ≡ mload step }
{
    let Label::Arg(val) = step.load else {
        return nothing();
    };
    label_top(Label::Arg(val))
}
