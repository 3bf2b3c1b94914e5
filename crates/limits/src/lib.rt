// The numbers of document 01, each named once for the code; specs/ has the same names for the definitions. A number
// joins this list with the first function that needs it.
#![tactic(auto)]

pub mod codes;
pub mod confidences;
pub mod fields;
pub mod input;
pub mod layout;
mod refusal;

pub use refusal::{Refusal, TAKEN, answer_number};

// Bytes of an EVM word. Keys, offsets and multipliers count in bytes, arguments and counts in words.
pub const WORD_BYTES: u32 = 32;

// Bytes of the selector, which stand before the first argument word.
pub const SELECTOR_BYTES: u32 = 4;

// "160 of them address": bits of an address.
pub const ADDRESS_BITS: u32 = 160;

// "Count is 1 to 99 for an array": the largest multiplier is this many words.
pub const ARRAY_COUNT_MAX: u32 = 99;

// "a bound of 1 to 255 inclusive": the largest bound of the range rule.
pub const RANGE_BOUND_MAX: u32 = 255;

// "at most 8,192 codes": the longest list that has a text.
pub const CODES_MAX: usize = 8192;

// "has the type slice 8,192 u16 numbers or more?"
pub const TYPES_ROOM: usize = 8192;

// "`fits_type_budget` starts at depth 0 with 8,192."
pub const BUDGET_MAX: u32 = 8192;

// "records of 11": numbers of a record.
pub const RECORD_WIDTH: usize = 11;

// "1 to 16,384 records".
pub const RECORDS_MAX: u32 = 16384;

// "Kind is 0 none, 1 dynamic, 2 array." Numbers and no enum: C lends the records as u32 numbers.
pub const KIND_DYNAMIC: u32 = 1;

pub const KIND_ARRAY: u32 = 2;

// "at most 134,217,727 for dynamic": the largest dynamic count.
pub const DYNAMIC_COUNT_MAX: u32 = 134217727;

// "Confidence is 1 to 20 with a name".
pub const CONFIDENCE_MAX: u32 = 20;

// "Is the code at most 65,536 bytes?"
pub const CODE_MAX: usize = 65536;

// "whole slots and entries, at most 1,024 each".
pub const SLOTS_MAX: usize = 1024;

pub const ENTRIES_MAX: usize = 1024;

// "followed for offsets 4 to 130,047": the largest offset of a load that is followed.
pub const LOAD_MAX: u32 = 130047;

// The Rust's `MAX_ARGUMENT_WORDS`: a longer head is not filled.
pub const ARGUMENT_WORDS_MAX: u32 = 4096;

// Demand 3: "no fact lies deeper than 64"; the Rust's `MAX_ARGUMENT_DEPTH`.
pub const DEPTH_MAX: u32 = 64;
