// PUSH1 to PUSH4, its bytes and JUMPI.
ghost use Rattle.std.specs.Prelude.{◌≡◌, ◌^◌, ◌≤◌};
ghost use Rattle.code.specs.Jump.{jump_at};

use crate::Jump;
use crate::bytes::{byte_is, number_at, push_size_at};
use opcode::JUMPI;

#[tactic(auto, using(crate::proofs::Places::stands_inside), unfolding(crate::specs::Jump::jump_at))]
pub fn jump_at(code: &[u8], at: usize) -> Option<Jump>
    requires { at ≤ 2 ^ 32 }
    ensures { result ≡ jump_at code.now at }
{
    let size = push_size_at(code, at)?;
    if !byte_is(code, at + 1 + size, JUMPI) {
        return None;
    }
    Some(Jump {
        target: number_at(code, at + 1, size),
        next: at + 2 + size,
    })
}
