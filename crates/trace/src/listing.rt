// The lines of a list: the first line, and one for each entry, with its number from 0, one behind the other.
ghost use Rattle.std.specs.Prelude.{◌+◌, ◌≤◌, length};
ghost use Rattle.limits.specs.Limits.{codes_max};
ghost use Rattle.spell.specs.Writer.{SameSlice};
ghost use Rattle.trace.specs.Lines.{entries_room, list_room, EntriesStored, ListStored};

use crate::entry::entry_length;
use crate::lines::{LINE_ROOM, put_args, put_entry};
use spell::Writer;

// Room for the lines of any list of 8,192 codes: at most 21 bytes for each code, a line more, and the first line.
pub const LIST_ROOM: usize = 245856;

// Stores the lines of the entries.
pub fn put_entries(w: &mut Writer, entries: u32, codes: &[u16])
    requires { (length codes.now ≤ codes_max) × (w.old.to + entries_room ≤ length w.old.out.now) }
    ensures entries_stored { EntriesStored entries codes.now w.old.out.now w.old.to w.new.to w.new.out.now }
    ensures slice { SameSlice w.old w.new }
{
    let mut left = codes;
    for k in 0..entries {
        // never so for the codes of as many types
        if w.out.len() - w.to < LINE_ROOM {
            return;
        }
        let (entry, behind) = left.split_at(entry_length(left));
        put_entry(w, k, entry);
        left = behind;
    }
}

// Stores the list: the first line, as "args 1 left 8189 head 32", and the entries.
pub fn put_list(w: &mut Writer, entries: u32, left: u32, head: u32, codes: &[u16])
    requires { (length codes.now ≤ codes_max) × (w.old.to + list_room ≤ length w.old.out.now) }
    ensures list_stored { ListStored entries left head codes.now w.old.out.now w.old.to w.new.to w.new.out.now }
    ensures slice { SameSlice w.old w.new }
{
    put_args(w, entries, left, head);
    put_entries(w, entries, codes);
}
