// Questions 3 to 7.
ghost use Rattle.std.specs.Prelude.{◌≡◌, length, get_or};
ghost use Rattle.limits.specs.Layout.{step_width, step_op, step_second};
ghost use Rattle.word.specs.Numbers.{word_at};
ghost use Rattle.step.specs.Questions.{sizes_fit, labels_fit, load_fits, copy_fits, fields_fit, slot_there};

use labels::{are_entries, are_slots, is_label};
use limits::layout::{
    ENTRY_WIDTH, SLOT_LABEL, SLOT_WIDTH, STEP_FIRST, STEP_LOAD, STEP_LOAD_FLAG, STEP_OP, STEP_PICK,
    STEP_SECOND, STEP_WIDTH,
};
use limits::{ENTRIES_MAX, SLOTS_MAX};
use opcode::{CALLDATACOPY, needs_slot};
use word::compare::below_number;
use word::numbers::from_numbers;

// Question 4.
#[tactic(auto, unfolding(crate::specs::Questions::sizes_fit))]
pub fn sizes_fit(stack: &[u32], memory: &[u32], numbers: &[u32]) -> bool
    ensures { result ≡ sizes_fit stack.now memory.now numbers.now }
{
    (stack.len() % SLOT_WIDTH == 0)
        & (stack.len() / SLOT_WIDTH <= SLOTS_MAX)
        & ((memory.len() % ENTRY_WIDTH == 0) & (memory.len() / ENTRY_WIDTH <= ENTRIES_MAX))
        & (numbers.len() == STEP_WIDTH)
}

// Question 5.
#[tactic(auto, unfolding(crate::specs::Questions::labels_fit))]
pub fn labels_fit(used: u32, stack: &[u32], memory: &[u32], numbers: &[u32]) -> bool
    requires { length numbers.now ≡ step_width }
    ensures { result ≡ labels_fit used stack.now memory.now numbers.now }
{
    are_slots(stack, used)
        & are_entries(memory, used)
        & is_label(numbers, STEP_FIRST + SLOT_LABEL, used)
        & is_label(numbers, STEP_SECOND + SLOT_LABEL, used)
        & is_label(numbers, STEP_LOAD, used)
}

fn load_fits(flag: u32, kind: u32) -> bool
    ensures { result ≡ load_fits flag kind }
{
    if flag == 0 {
        return kind == 0;
    }
    (flag == 1) & (kind != 0)
}

fn copy_fits(numbers: &[u32]) -> bool
    requires { length numbers.now ≡ step_width }
    ensures { result ≡ copy_fits (get_or numbers.now step_op 0) (word_at numbers.now step_second) }
{
    if numbers[STEP_OP] != u32::from(CALLDATACOPY) {
        return true;
    }
    below_number(from_numbers(numbers, STEP_SECOND), 0x1_0000_0000)
}

// Question 6.
#[tactic(auto, unfolding(crate::specs::Questions::fields_fit))]
pub fn fields_fit(memory: &[u32], numbers: &[u32]) -> bool
    requires { length numbers.now ≡ step_width }
    ensures { result ≡ fields_fit memory.now numbers.now }
{
    (numbers[STEP_OP] <= 255)
        & (numbers[STEP_PICK] as usize <= memory.len() / ENTRY_WIDTH)
        & load_fits(numbers[STEP_LOAD_FLAG], numbers[STEP_LOAD])
        & copy_fits(numbers)
}

// Question 7.
#[tactic(auto, unfolding(crate::specs::Questions::slot_there))]
pub fn slot_there(stack: &[u32], op: u8) -> bool
    ensures { result ≡ slot_there stack.now op }
{
    (!needs_slot(op)) | (SLOT_WIDTH <= stack.len())
}
