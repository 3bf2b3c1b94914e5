// Guards behind a comparison, and the check for zero before a division.
ghost use Rattle.std.specs.Prelude.{◌≡◌};
ghost use Rattle.code.specs.Guard.{guard_failure_pc, is_empty_revert_guard, is_division_check};

use crate::bytes::{byte_is, past_byte};
use crate::revert::is_empty_revert;
use crate::target::jump_at;
use opcode::{DIV, ISZERO, JUMPDEST};

// Where control goes if the guard at pc fails: behind its jump after value < bound, to the target after value > bound.
// ISZERO turns the two.
#[tactic(auto, unfolding(crate::specs::Guard::guard_failure_pc))]
pub fn guard_failure_pc(code: &[u8], pc: u32, less_than: bool) -> Option<usize>
    ensures { result ≡ guard_failure_pc code.now pc less_than }
{
    let inverted = byte_is(code, pc as usize, ISZERO);
    let jump = jump_at(code, past_byte(code, pc, ISZERO))?;
    if less_than != inverted {
        Some(jump.next)
    } else {
        Some(jump.target as usize)
    }
}

// Only empty-revert guards are candidates for range validation.
#[tactic(auto, using(crate::proofs::Reverts::revert_past), unfolding(crate::specs::Guard::is_empty_revert_guard))]
pub fn is_empty_revert_guard(code: &[u8], pc: u32, less_than: bool) -> bool
    ensures { result ≡ is_empty_revert_guard code.now pc less_than }
{
    let Some(at) = guard_failure_pc(code, pc, less_than) else {
        return false;
    };
    match code.get(at..) {
        Some(part) => is_empty_revert(part),
        None => false,
    }
}

// Is the double ISZERO before pc a check for zero before a division, as Solidity before 0.6.0 writes it: a jump to
// JUMPDEST, DIV?
#[tactic(auto, unfolding(crate::specs::Guard::is_division_check))]
pub fn is_division_check(code: &[u8], pc: u32) -> bool
    ensures { result ≡ is_division_check code.now pc }
{
    let Some(jump) = jump_at(code, pc as usize) else {
        return false;
    };
    let target = jump.target as usize;
    byte_is(code, target, JUMPDEST) && byte_is(code, target + 1, DIV)
}
