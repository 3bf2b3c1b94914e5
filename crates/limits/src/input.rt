// "Lines of the trace printer": the sizes of its input, and the places of its numbers.
use crate::RECORD_WIDTH;

// "Here code is at most 24,576 bytes, slots and entries 256 each; the table has 1,480 records."
pub const TRACE_CODE_MAX: usize = 24576;

pub const TRACE_SLOTS_MAX: usize = 256;

pub const TRACE_ENTRIES_MAX: usize = 256;

pub const TRACE_RECORDS: usize = 1480;

// Numbers of that table.
pub const TRACE_NUMBERS: usize = TRACE_RECORDS * RECORD_WIDTH;

// "u32 little-endian": bytes of a number.
pub const NUMBER_BYTES: usize = 4;

// "code length, start pc, packed flag, packed word (eight numbers, present at flag 0 too)".
pub const HEADER_WIDTH: usize = 11;

pub const HEADER_LENGTH: usize = 0;

pub const HEADER_START: usize = 1;

pub const HEADER_FLAG: usize = 2;

pub const HEADER_PACKED: usize = 3;

// "for each step its 59 numbers, slot count, entry count": what stands before the slots.
pub const GROUP_WIDTH: usize = 61;

pub const GROUP_SLOTS: usize = 59;

pub const GROUP_ENTRIES: usize = 60;
