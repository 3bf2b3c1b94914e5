// "Confidences: BYTE 4; AND and double ISZERO 5; range 6; SDIV, SMOD 8; bytes 10; MSTORE8 12; the rest 20."

pub const BY_BYTE: u32 = 4;

// AND and double ISZERO.
pub const BY_AND_OR_ISZERO: u32 = 5;

pub const BY_RANGE: u32 = 6;

// SDIV and SMOD.
pub const BY_SDIV_OR_SMOD: u32 = 8;

// A name that is bytes.
pub const BY_BYTES: u32 = 10;

pub const BY_MSTORE8: u32 = 12;

// The rest.
pub const BY_THE_REST: u32 = 20;
