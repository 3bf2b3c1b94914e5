// The step of a group: its numbers are read straight from the bytes, the slots and entries to room of its own, and the
// step call is made.
ghost use Rattle.std.specs.Prelude.{◌≡◌, length};
ghost use Rattle.limits.specs.Refusal.{answer_number};
ghost use Rattle.trace.specs.Group.{slot_numbers, entry_numbers};
ghost use Rattle.groups.specs.Group.{IsGroup};
ghost use Rattle.head.specs.Held.{held};
ghost use Rattle.groups.specs.Call.{verdict_of, held_after, Put, Outcome};

use crate::whole::is_group;
use head::Head;
use limits::input::{NUMBER_BYTES, TRACE_ENTRIES_MAX, TRACE_SLOTS_MAX};
use limits::layout::{ENTRY_WIDTH, SLOT_WIDTH, STEP_WIDTH};
use step::Stepped;
use trace::{FRONT_BYTES, entry_count, read_numbers, slot_count};

// Numbers of 256 slots, and of 256 entries.
const STACK_ROOM: usize = TRACE_SLOTS_MAX * SLOT_WIDTH;

const MEMORY_ROOM: usize = TRACE_ENTRIES_MAX * ENTRY_WIDTH;

// The step of a whole group, with a stack and a memory of its sizes.
fn put_step(
    head: Head,
    table: &mut [u32],
    code: &[u8],
    bytes: &[u8],
    stack: &mut [u32],
    memory: &mut [u32],
) -> Stepped
    requires group { IsGroup bytes.now }
    requires stack_len { (length stack.old ≡ slot_numbers bytes.now) × (length memory.old ≡ entry_numbers bytes.now) }
    ensures { Put (held head table.old) code.now bytes.now
        (answer_number result.answer) (held result.head table.new) }
{
    let mut numbers = [0u32; STEP_WIDTH];
    let behind = FRONT_BYTES + stack.len() * NUMBER_BYTES;
    read_numbers(bytes, &mut numbers);
    read_numbers(&bytes[FRONT_BYTES..], stack);
    read_numbers(&bytes[behind..], memory);
    by_reference::run_step(head, table, code, stack, memory, &numbers)
}

// What the step call answers to a group; nothing, with nothing changed, if the bytes are no whole one within the sizes.
pub fn take_group(head: Head, table: &mut [u32], code: &[u8], bytes: &[u8]) -> Option<Stepped>
    ensures { Outcome (held head table.old) code.now bytes.now (verdict_of result)
        (held_after result head table.new) }
{
    if !is_group(bytes) {
        return None;
    }
    let mut stack = [0u32; STACK_ROOM];
    let mut memory = [0u32; MEMORY_ROOM];
    let s = slot_count(bytes) as usize * SLOT_WIDTH;
    let m = entry_count(bytes) as usize * ENTRY_WIDTH;
    let (stack, memory) = (&mut stack[..s], &mut memory[..m]);
    Some(put_step(head, table, code, bytes, stack, memory))
}
