// Labels, and the slots, entries and steps that hold them, from and to numbers. Nothing here knows what a path leads
// to.
#![tactic(auto)]

mod check;
mod operands;
mod read;
mod stack;
mod steps;
mod write;

pub use check::{are_entries, are_slots, is_label};
pub use operands::{choose, is_length, is_length_of, is_unmasked, is_unmasked_length, same_arg};
pub use read::{read_element, read_label};
pub use stack::{
    memory_ones, put_pick_label, put_pick_one, put_top_label, put_top_word, stack_ones,
};
pub use steps::read_step;
use word::U256;
pub use write::{put_label, put_small};

// What an argument's label says: the argument at an offset below a path, with a constant added and a mask applied. A
// path is a record's number. `and_mask` is None where no mask was applied.
#[derive(Clone, Copy, Debug, PartialEq, Eq)]
pub struct Val {
    pub offset: u32,
    pub path: u32,
    pub add_val: u32,
    pub and_mask: Option<U256>,
}

// "A label is none, call data, argument, or zero test of an argument".
#[derive(Clone, Copy, Debug, PartialEq, Eq)]
pub enum Label {
    Unlabelled,
    CallData,
    Arg(Val),
    IsZeroResult(Val),
}

// A word with its label: a stack slot or an operand.
#[derive(Clone, Copy, Debug, PartialEq, Eq)]
pub struct Element {
    pub word: U256,
    pub label: Label,
}

// What the machine hands over with a step. The load label is `Unlabelled` where the load flag is 0.
#[derive(Clone, Copy, Debug, PartialEq, Eq)]
pub struct Step {
    pub op: u8,
    pub pc: u32,
    pub first: Element,
    pub second: Element,
    pub pick: u32,
    pub load: Label,
}

// An operand that is an argument, with its own word, and the other operand: the Rust's `match_first_two!`.
#[derive(Clone, Copy, Debug, PartialEq, Eq)]
pub struct Choice {
    pub val: Val,
    pub own: U256,
    pub other: Element,
}
