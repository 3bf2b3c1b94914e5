// What the trace printer reads and writes, on slices: numbers from bytes, the sizes of the input, one entry of a list
// of codes, and the lines. Nothing here knows of facts or steps, and nothing reads or writes a file.
#![tactic(auto)]

mod entry;
mod fits;
mod group;
mod lines;
mod listing;
mod numbers;

pub use entry::entry_length;
pub use fits::header_fits;
pub use group::{FRONT_BYTES, GROUP_ROOM, entry_count, group_rest, slot_count};
pub use lines::{LINE_ROOM, put_args, put_entry, put_refused};
pub use listing::{LIST_ROOM, put_entries, put_list};
pub use numbers::{number_at, read_numbers};
