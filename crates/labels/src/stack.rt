// What a step writes to the stack and the memory.
ghost use Rattle.std.specs.Prelude.{◌≡◌, ◌+◌, ◌*◌, ◌≤◌, length};
ghost use Rattle.limits.specs.Layout.{slot_width, entry_width};
ghost use Rattle.labels.specs.Stack.{with_top_label, with_top_word, with_pick_label, with_pick_one, slot_one, entry_one};
ghost use Rattle.labels.specs.Stack.{stack_ones, memory_ones};

use crate::Label;
use crate::operands::is_length_of;
use crate::read::read_label;
use crate::write::{put_label, put_small};
use limits::layout::{ENTRY_LABEL, ENTRY_REPLACED, ENTRY_WIDTH, SLOT_LABEL, SLOT_WIDTH};

#[tactic(auto, unfolding(crate::specs::Stack::with_top_label))]
pub fn put_top_label(stack: &mut [u32], label: Label)
    requires { slot_width ≤ length stack.old }
    ensures { stack.new ≡ with_top_label stack.old label }
{
    let top = stack.len() - SLOT_WIDTH;
    put_label(stack, top + SLOT_LABEL, label);
}

#[tactic(auto, unfolding(crate::specs::Stack::with_top_word))]
pub fn put_top_word(stack: &mut [u32], n: u32)
    requires { slot_width ≤ length stack.old }
    ensures { stack.new ≡ with_top_word stack.old n }
{
    let top = stack.len() - SLOT_WIDTH;
    put_small(stack, top, n);
}

#[tactic(auto, unfolding(crate::specs::Stack::with_pick_label))]
pub fn put_pick_label(memory: &mut [u32], pick: u32, label: Label)
    requires { pick * entry_width ≤ length memory.old }
    ensures { memory.new ≡ with_pick_label memory.old pick label }
{
    if pick == 0 {
        return;
    }
    let at = (pick as usize - 1) * ENTRY_WIDTH;
    put_label(memory, at + ENTRY_LABEL, label);
}

#[tactic(auto, unfolding(crate::specs::Stack::with_pick_one))]
pub fn put_pick_one(memory: &mut [u32], pick: u32)
    requires { pick * entry_width ≤ length memory.old }
    ensures { memory.new ≡ with_pick_one memory.old pick }
{
    if pick == 0 {
        return;
    }
    let at = (pick as usize - 1) * ENTRY_WIDTH;
    memory[at + ENTRY_REPLACED] = 1;
}

// "its bytes became the 32-byte word 1": each slot that holds the length at that path becomes 1. What is promised speaks
// of places in the whole stack, and with `chunks_exact_mut` would have to be put together of the slots: no plainer.
pub fn stack_ones(stack: &mut [u32], path: u32)
    ensures { stack.new ≡ stack_ones path stack.old }
{
    for i in 0..stack.len() / SLOT_WIDTH {
        slot_one(stack, path, i);
    }
}

// The same for each entry. A slot's word is eight numbers and an entry's mark is one, so one function for both would
// take what to store and where: no plainer.
pub fn memory_ones(memory: &mut [u32], path: u32)
    ensures { memory.new ≡ memory_ones path memory.old }
{
    for i in 0..memory.len() / ENTRY_WIDTH {
        entry_one(memory, path, i);
    }
}

fn slot_one(stack: &mut [u32], path: u32, i: usize)
    requires { i * slot_width + slot_width ≤ length stack.old }
    ensures { stack.new ≡ slot_one path stack.old i }
{
    let at = i * SLOT_WIDTH;
    if is_length_of(path, read_label(stack, at + SLOT_LABEL)) {
        put_small(stack, at, 1);
    }
}

fn entry_one(memory: &mut [u32], path: u32, i: usize)
    requires { i * entry_width + entry_width ≤ length memory.old }
    ensures { memory.new ≡ entry_one path memory.old i }
{
    let at = i * ENTRY_WIDTH;
    if is_length_of(path, read_label(memory, at + ENTRY_LABEL)) {
        memory[at + ENTRY_REPLACED] = 1;
    }
}
