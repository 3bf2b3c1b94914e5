// Opcodes by name, and one decision each over an opcode for the questions that document 01 asks of it. An opcode is a
// byte and no enum: each of the 256 bytes is one, and those without a name go the common way.
#![tactic(auto)]

mod decide;

pub use decide::{clears_operands, ends_decoder, needs_slot, push_size};

// The names and numbers of the Yellow Paper, appendix H.2, and of evmole's op.rs for later ones: those that the code
// uses so far.
pub const ADD: u8 = 0x01;

pub const MUL: u8 = 0x02;

pub const SUB: u8 = 0x03;

pub const DIV: u8 = 0x04;

pub const SDIV: u8 = 0x05;

pub const MOD: u8 = 0x06;

pub const SMOD: u8 = 0x07;

pub const EXP: u8 = 0x0a;

pub const SIGNEXTEND: u8 = 0x0b;

pub const LT: u8 = 0x10;

pub const GT: u8 = 0x11;

pub const EQ: u8 = 0x14;

pub const ISZERO: u8 = 0x15;

pub const AND: u8 = 0x16;

pub const BYTE: u8 = 0x1a;

pub const SHL: u8 = 0x1b;

pub const SHR: u8 = 0x1c;

pub const KECCAK256: u8 = 0x20;

pub const BALANCE: u8 = 0x31;

pub const CALLDATALOAD: u8 = 0x35;

pub const CALLDATASIZE: u8 = 0x36;

pub const CALLDATACOPY: u8 = 0x37;

pub const EXTCODESIZE: u8 = 0x3b;

pub const EXTCODECOPY: u8 = 0x3c;

pub const EXTCODEHASH: u8 = 0x3f;

pub const MLOAD: u8 = 0x51;

pub const MSTORE8: u8 = 0x53;

pub const SLOAD: u8 = 0x54;

pub const SSTORE: u8 = 0x55;

pub const JUMPI: u8 = 0x57;

pub const JUMPDEST: u8 = 0x5b;

pub const TLOAD: u8 = 0x5c;

pub const TSTORE: u8 = 0x5d;

pub const PUSH0: u8 = 0x5f;

pub const PUSH1: u8 = 0x60;

pub const PUSH4: u8 = 0x63;

pub const DUP1: u8 = 0x80;

pub const LOG0: u8 = 0xa0;

pub const LOG4: u8 = 0xa4;

pub const CREATE: u8 = 0xf0;

pub const CALL: u8 = 0xf1;

pub const CALLCODE: u8 = 0xf2;

pub const DELEGATECALL: u8 = 0xf4;

pub const CREATE2: u8 = 0xf5;

pub const STATICCALL: u8 = 0xfa;

pub const REVERT: u8 = 0xfd;

pub const SELFDESTRUCT: u8 = 0xff;
