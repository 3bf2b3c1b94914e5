// One decision each over an opcode; each equals its list of specs/Lists.antt at all 256 opcodes.
ghost use Rattle.std.specs.Prelude.{◌≡◌, ◌≤◌, IfSome};
ghost use Rattle.opcode.specs.Lists.{listed, operand_clearers, decoder_enders, slot_needers, push_size};

use crate::{
    ADD, AND, BALANCE, CALL, CALLCODE, CALLDATALOAD, CREATE, CREATE2, DELEGATECALL, DIV, EQ, EXP,
    EXTCODECOPY, EXTCODEHASH, EXTCODESIZE, GT, ISZERO, JUMPI, KECCAK256, LOG0, LOG4, LT, MLOAD,
    MOD, MUL, PUSH0, PUSH1, PUSH4, SELFDESTRUCT, SHL, SLOAD, SSTORE, STATICCALL, SUB, TLOAD,
    TSTORE,
};

// Does a step with this opcode clear range hints of its operands? REVERT, which clears all hints of a decoder, is
// apart.
#[tactic(auto, unfolding(crate::specs::Lists::listed, crate::specs::Lists::operand_clearers))]
pub fn clears_operands(op: u8) -> bool
    ensures { result ≡ listed op operand_clearers }
{
    matches!(op, DIV | MOD | SUB | EXP | EQ | ISZERO | JUMPI | SLOAD)
}

// Does a step with this opcode end the decoder phase?
#[tactic(auto, unfolding(crate::specs::Lists::listed, crate::specs::Lists::decoder_enders))]
pub fn ends_decoder(op: u8) -> bool
    ensures { result ≡ listed op decoder_enders }
{
    matches!(
        op,
        SLOAD
            | SSTORE
            | TLOAD
            | TSTORE
            | KECCAK256
            | BALANCE
            | EXTCODESIZE
            | EXTCODEHASH
            | EXTCODECOPY
            | CALL
            | CALLCODE
            | DELEGATECALL
            | STATICCALL
            | CREATE
            | CREATE2
            | SELFDESTRUCT
            | LOG0..=LOG4
    )
}

// Question 7: does a step with this opcode need a slot on the stack?
#[tactic(auto, unfolding(crate::specs::Lists::listed, crate::specs::Lists::slot_needers))]
pub fn needs_slot(op: u8) -> bool
    ensures { result ≡ listed op slot_needers }
{
    matches!(
        op,
        CALLDATALOAD | ADD | MUL | SHL | LT | GT | AND | ISZERO | MLOAD
    )
}

// How many bytes PUSH1 to PUSH4 push; None for any other opcode. Guards and length checks know these four alone.
#[tactic(auto, unfolding(crate::specs::Lists::push_size))]
pub fn push_size(op: u8) -> Option<usize>
    ensures { (result ≡ push_size op) × IfSome result (λ n. n ≤ 4) }
{
    match op {
        PUSH1..=PUSH4 => Some(usize::from(op - PUSH0)),
        _ => None,
    }
}
