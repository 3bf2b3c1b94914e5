// The least length of call data, as the start of a function checks it, in words of arguments.
ghost use Rattle.std.specs.Prelude.{◌≡◌, ◌^◌, ◌≤◌};
ghost use Rattle.code.specs.Length.{words_in, compares_size, direct_size, direct_min_calldata_words};

use crate::bytes::{byte_is, number_at, past_byte, push_size_at};
use limits::{SELECTOR_BYTES, WORD_BYTES};
use opcode::{CALLDATASIZE, JUMPDEST, LT};

// The whole words behind the selector, if the length is such a sum.
#[tactic(auto, unfolding(crate::specs::Length::words_in))]
pub fn words_in(size: u32) -> Option<u32>
    ensures { result ≡ words_in size }
{
    let arguments = size.checked_sub(SELECTOR_BYTES)?;
    if arguments % WORD_BYTES == 0 {
        Some(arguments / WORD_BYTES)
    } else {
        None
    }
}

// CALLDATASIZE, LT at the place.
#[tactic(auto, unfolding(crate::specs::Length::compares_size))]
pub fn compares_size(code: &[u8], at: usize) -> bool
    requires { at ≤ 2 ^ 33 }
    ensures { result ≡ compares_size code.now at }
{
    byte_is(code, at, CALLDATASIZE) && byte_is(code, at + 1, LT)
}

// PUSH1 to PUSH4 of the length, CALLDATASIZE, LT: the length in bytes, if the code reads so.
#[tactic(auto, using(crate::proofs::Lengths::compares_inside), unfolding(crate::specs::Length::direct_size))]
fn direct_min_size(code: &[u8], pc: u32) -> Option<u32>
    ensures { result ≡ direct_size code.now pc }
{
    let at = past_byte(code, pc, JUMPDEST);
    let size = push_size_at(code, at)?;
    if compares_size(code, at + 1 + size) {
        Some(number_at(code, at + 1, size))
    } else {
        None
    }
}

#[tactic(auto, unfolding(crate::specs::Length::direct_min_calldata_words))]
pub fn direct_min_calldata_words(code: &[u8], pc: u32) -> Option<u32>
    ensures { result ≡ direct_min_calldata_words code.now pc }
{
    words_in(direct_min_size(code, pc)?)
}
