// The arm of an opcode, and the plan of a step.
ghost use Rattle.std.specs.Prelude.{◌≡◌, ◌≤◌};
ghost use Rattle.limits.specs.Limits.{records_max};
ghost use Rattle.paths.specs.Lent.{facts_of};
ghost use Rattle.analyze.specs.Arms.{arm};
ghost use Rattle.analyze.specs.Analyze.{plan_of};
ghost use Rattle.analyze.specs.Ready.{StepReaches};

use crate::lengths::{compare, mul, shl};
use crate::loads::load;
use crate::naming::{and, byte, call, eq, is_zero, mload, mstore8, shr, sign_extend, signed};
use crate::plans::nothing;
use crate::ranging::{range_plan, range_rule};
use crate::sums::add;
use analyze::Plan;
use labels::Step;
use opcode::{
    ADD, AND, BYTE, CALL, CALLCODE, CALLDATACOPY, CALLDATALOAD, DELEGATECALL, EQ, GT, ISZERO, LT,
    MLOAD, MSTORE8, MUL, SDIV, SHL, SHR, SIGNEXTEND, SMOD, STATICCALL, ends_decoder,
};
use paths::Facts;

// The arm of the step's opcode.
#[tactic(auto, unfolding(analyze::specs::Arms::arm_by, opcode::specs::Lists::listed, opcode::specs::Lists::calls))]
fn arm(facts: &Facts, active: bool, code: &[u8], step: Step) -> Plan
    requires reaches { StepReaches facts.now.used step }
    requires small { facts.now.records ≤ records_max }
    ensures { result ≡ arm (facts_of facts.now) active code.now step }
{
    let op = step.op;
    match op {
        CALLDATALOAD | CALLDATACOPY => load(facts, step),
        CALL | CALLCODE | DELEGATECALL | STATICCALL => call(step),
        ADD => add(facts, step),
        SHL => shl(facts, active, code, step),
        MUL => mul(facts, step),
        LT | GT => compare(facts, step),
        MSTORE8 => mstore8(step),
        SHR => shr(active, code, step),
        SDIV | SMOD => signed(step),
        AND => and(step),
        EQ => eq(step),
        ISZERO => is_zero(code, step),
        SIGNEXTEND => sign_extend(step),
        BYTE => byte(step),
        MLOAD => mload(step),
        _ => nothing(),
    }
}

// What a step does behind its first phase: the range rule's plan if it applies, else its arm's.
#[tactic(auto, unfolding(analyze::specs::Analyze::plan_of, analyze::specs::Phases::active_after))]
pub fn plan_of(facts: &Facts, active: bool, code: &[u8], step: Step) -> Plan
    requires reaches { StepReaches facts.now.used step }
    requires small { facts.now.records ≤ records_max }
    ensures { result ≡ plan_of (facts_of facts.now) active code.now step }
{
    if range_rule(active, code, step) {
        return range_plan(step);
    }
    arm(facts, active & !ends_decoder(step.op), code, step)
}
