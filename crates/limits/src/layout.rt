// The places of the numbers of a label, a slot, an entry and a step.

// "256-bit words as eight of them": numbers of a word.
pub const WORD_WIDTH: usize = 8;

// "13 numbers: kind 0 to 3 in that order, offset, path (a record number), added value, masked (0 or 1), mask".
pub const LABEL_WIDTH: usize = 13;

pub const LABEL_OFFSET: usize = 1;

pub const LABEL_PATH: usize = 2;

pub const LABEL_ADDED: usize = 3;

pub const LABEL_MASKED: usize = 4;

pub const LABEL_MASK: usize = 5;

// "A label is none, call data, argument, or zero test of an argument": its kinds, the numbers by which C hands a label
// over. The enum is `labels::Label`.
pub const LABEL_NONE: u32 = 0;

pub const LABEL_CALL_DATA: u32 = 1;

pub const LABEL_ARGUMENT: u32 = 2;

pub const LABEL_ZERO_TEST: u32 = 3;

// "Stack slot: word, label (21)."
pub const SLOT_WIDTH: usize = 21;

pub const SLOT_LABEL: usize = 8;

// "Memory entry: offset, replaced mark (0 or 1), label (15)".
pub const ENTRY_WIDTH: usize = 15;

pub const ENTRY_REPLACED: usize = 1;

pub const ENTRY_LABEL: usize = 2;

// "Step (59): op, pc after the step, two operands as slots, pick, load flag, load label."
pub const STEP_WIDTH: usize = 59;

pub const STEP_OP: usize = 0;

pub const STEP_PC: usize = 1;

pub const STEP_FIRST: usize = 2;

pub const STEP_SECOND: usize = 23;

pub const STEP_PICK: usize = 44;

pub const STEP_LOAD_FLAG: usize = 45;

pub const STEP_LOAD: usize = 46;
