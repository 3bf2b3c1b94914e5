// "Here code is at most 24,576 bytes, slots and entries 256 each"; "over these sizes, has a packed flag above 1".
ghost use Rattle.std.specs.Prelude.{◌≡◌};
ghost use Rattle.trace.specs.Fits.{header_fits, group_fits};

use limits::input::{TRACE_CODE_MAX, TRACE_ENTRIES_MAX, TRACE_SLOTS_MAX};

// The code's length and the packed flag.
pub fn header_fits(length: u32, flag: u32) -> bool
    ensures { result ≡ header_fits length flag }
{
    length as usize <= TRACE_CODE_MAX && flag <= 1
}

// The numbers of slots and of entries.
pub fn group_fits(slots: u32, entries: u32) -> bool
    ensures { result ≡ group_fits slots entries }
{
    slots as usize <= TRACE_SLOTS_MAX && entries as usize <= TRACE_ENTRIES_MAX
}
