// The least length in a packed word, as dense dispatch tables of Vyper keep it: DUP1, PUSH1 to PUSH3 of a mask, AND,
// CALLDATASIZE, LT.
ghost use Rattle.std.specs.Prelude.{◌≡◌, ◌^◌, ◌≤◌};
ghost use Rattle.std.specs.Int.Bits.{bit_and};
ghost use Rattle.word.specs.Value.{value_of};
ghost use Rattle.code.specs.Dense.{size_mask, dense_shape, dense_size, dense_min_calldata_words};

use crate::bytes::{byte_is, number_at, past_byte, push_size_at};
use crate::length::{compares_size, words_in};
use opcode::{AND, DUP1, JUMPDEST};
use word::U256;

// Every bit of 1 to 3 bytes but the lowest, which is no part of the length.
#[tactic(auto, unfolding(crate::specs::Dense::size_mask))]
fn size_mask(size: usize) -> u32
    requires { (1 ≤ size) × (size ≤ 3) }
    ensures { result ≡ size_mask size }
{
    match size {
        1 => 0xfe,
        2 => 0xfffe,
        _ => 0xff_fffe,
    }
}

// DUP1, a push of 1 to 3 bytes, AND, CALLDATASIZE, LT.
#[tactic(auto, unfolding(crate::specs::Dense::dense_shape))]
fn is_dense(code: &[u8], at: usize, size: usize) -> bool
    requires { (at ≤ 2 ^ 32) × (size ≤ 4) }
    ensures { result ≡ dense_shape code.now at size }
{
    (1 <= size)
        & (size <= 3)
        & byte_is(code, at, DUP1)
        & byte_is(code, at + 2 + size, AND)
        & compares_size(code, at + 3 + size)
}

// By `as`, for no `From` narrows: what a mask of 32 bits leaves fits, as is proved.
#[tactic(auto, using(crate::proofs::Denses::masked_law))]
fn masked(packed: U256, mask: u32) -> u32
    ensures { result ≡ bit_and (value_of packed) mask }
{
    (packed.l0 & u64::from(mask)) as u32
}

// The length in bytes, if the code reads it so.
#[tactic(auto, using(crate::proofs::Denses::shapes), unfolding(crate::specs::Dense::dense_size))]
fn dense_min_size(code: &[u8], pc: u32, packed: U256) -> Option<u32>
    ensures { result ≡ dense_size code.now pc (value_of packed) }
{
    let at = past_byte(code, pc, JUMPDEST);
    let size = push_size_at(code, at + 1)?;
    if !is_dense(code, at, size) {
        return None;
    }
    let mask = number_at(code, at + 2, size);
    if mask == size_mask(size) {
        Some(masked(packed, mask))
    } else {
        None
    }
}

#[tactic(auto, unfolding(crate::specs::Dense::dense_min_calldata_words))]
pub fn dense_min_calldata_words(code: &[u8], pc: u32, packed: U256) -> Option<u32>
    ensures { result ≡ dense_min_calldata_words code.now pc (value_of packed) }
{
    words_in(dense_min_size(code, pc, packed)?)
}
