// The sizes of a group: "for each step its 59 numbers, slot count, entry count, slots, entries". Both counts are looked
// at before a slot is read.
ghost use Rattle.std.specs.Prelude.{◌≡◌, ◌+◌, ◌≤◌, length, IfSome};
ghost use Rattle.trace.specs.Group.{front_bytes, slot_count, entry_count, group_rest, group_room};

use crate::fits::group_fits;
use crate::numbers::number_at;
use limits::input::{
    GROUP_ENTRIES, GROUP_SLOTS, GROUP_WIDTH, NUMBER_BYTES, TRACE_ENTRIES_MAX, TRACE_SLOTS_MAX,
};
use limits::layout::{ENTRY_WIDTH, SLOT_WIDTH};

// Bytes of the 61 numbers that stand before the slots.
pub const FRONT_BYTES: usize = GROUP_WIDTH * NUMBER_BYTES;

// Bytes of the longest group: the front, 256 slots and 256 entries.
pub const GROUP_ROOM: usize = FRONT_BYTES
    + (TRACE_SLOTS_MAX * SLOT_WIDTH + TRACE_ENTRIES_MAX * ENTRY_WIDTH) * NUMBER_BYTES;

// "slot count".
pub fn slot_count(bytes: &[u8]) -> u32
    requires { front_bytes ≤ length bytes.now }
    ensures { result ≡ slot_count bytes.now }
{
    number_at(bytes, GROUP_SLOTS * NUMBER_BYTES)
}

// "entry count".
pub fn entry_count(bytes: &[u8]) -> u32
    requires { front_bytes ≤ length bytes.now }
    ensures { result ≡ entry_count bytes.now }
{
    number_at(bytes, GROUP_ENTRIES * NUMBER_BYTES)
}

// How many bytes follow the front, by its two counts; none where they are over the sizes.
#[tactic(auto, using(crate::proofs::GroupLaws::rest_over, crate::proofs::GroupLaws::rest_bytes_lem))]
pub fn group_rest(bytes: &[u8]) -> Option<usize>
    requires { front_bytes ≤ length bytes.now }
    ensures rest { result ≡ group_rest bytes.now }
    ensures in_room { IfSome result (λ n. front_bytes + n ≤ group_room) }
{
    let slots = slot_count(bytes);
    let entries = entry_count(bytes);
    if !group_fits(slots, entries) {
        return None;
    }
    let numbers = slots as usize * SLOT_WIDTH + entries as usize * ENTRY_WIDTH;
    Some(numbers * NUMBER_BYTES)
}
