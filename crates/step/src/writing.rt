// What a plan writes to the stack and to the memory: each is lent on its own.
ghost use Rattle.std.specs.Prelude.{◌≡◌, ◌≤◌, length};
ghost use Rattle.limits.specs.Layout.{slot_width};
ghost use Rattle.labels.specs.Stack.{with_top_label, with_top_word, stack_ones};
ghost use Rattle.analyze.specs.Plan.{write_stack, write_memory};
ghost use Rattle.step.specs.Decide.{StackFits, MemoryFits};

use crate::Ran;
use analyze::{InMemory, OnStack, loaded_arg};
use labels::{
    Label, memory_ones, put_pick_label, put_pick_one, put_top_label, put_top_word, stack_ones,
};

// What a labelled load leaves on top: the length of an array becomes 1.
#[tactic(auto, unfolding(analyze::specs::Plan::write_stack))]
fn put_loaded(stack: &mut [u32], offset: u32, ran: Ran)
    requires { StackFits (OnStack.Loaded offset) stack.old }
    ensures { stack.new ≡ write_stack (OnStack.Loaded offset) ran.path ran.array stack.old }
{
    if (offset == 0) & ran.array {
        put_top_word(stack, 1);
    }
    put_top_label(stack, loaded_arg(offset, ran.path));
}

fn put_top(stack: &mut [u32], word: u32, label: Label)
    requires { slot_width ≤ length stack.old }
    ensures { stack.new ≡ with_top_label (with_top_word stack.old word) label }
{
    put_top_word(stack, word);
    put_top_label(stack, label);
}

fn put_ones(stack: &mut [u32], path: u32, word: u32)
    requires { slot_width ≤ length stack.old }
    ensures { stack.new ≡ with_top_word (stack_ones path stack.old) word }
{
    stack_ones(stack, path);
    put_top_word(stack, word);
}

// What was run says what a labelled load has found.
#[tactic(auto, unfolding(analyze::specs::Plan::write_stack))]
pub fn write_stack(stack: &mut [u32], write: OnStack, ran: Ran)
    requires { StackFits write stack.old }
    ensures { stack.new ≡ write_stack write ran.path ran.array stack.old }
{
    match write {
        OnStack::Keep => {}
        OnStack::Word(word) => put_top_word(stack, word),
        OnStack::Label(label) => put_top_label(stack, label),
        OnStack::WordLabel(word, label) => put_top(stack, word, label),
        OnStack::Loaded(offset) => put_loaded(stack, offset, ran),
        OnStack::Ones(marked, word) => put_ones(stack, marked, word),
    }
}

// What a labelled load leaves in the entry that was picked. It stores by other functions than `put_loaded`, so one for
// both would take the two of them: no plainer.
#[tactic(auto, unfolding(analyze::specs::Plan::write_memory))]
fn put_picked(memory: &mut [u32], pick: u32, offset: u32, ran: Ran)
    requires { MemoryFits (InMemory.Loaded pick offset) memory.old }
    ensures { memory.new ≡ write_memory (InMemory.Loaded pick offset) ran.path ran.array memory.old }
{
    if (offset == 0) & ran.array {
        put_pick_one(memory, pick);
    }
    put_pick_label(memory, pick, loaded_arg(offset, ran.path));
}

#[tactic(auto, unfolding(analyze::specs::Plan::write_memory))]
pub fn write_memory(memory: &mut [u32], write: InMemory, ran: Ran)
    requires { MemoryFits write memory.old }
    ensures { memory.new ≡ write_memory write ran.path ran.array memory.old }
{
    match write {
        InMemory::Keep => {}
        InMemory::Label(pick, label) => put_pick_label(memory, pick, label),
        InMemory::Loaded(pick, offset) => put_picked(memory, pick, offset, ran),
        InMemory::Ones(marked) => memory_ones(memory, marked),
    }
}
