// A step arrives: refused by one of the questions 1 to 8, in order, with everything left unchanged, or taken with
// exactly the effect of `analyze`. It is decided first (`deciding.rt`), from what is lent; then the plan is run on the
// facts, and what it writes goes to the stack and to the memory, one after the other.
#![tactic(auto)]

mod arrive;
mod deciding;
mod questions;
mod running;
mod writing;

use analyze::{Hints, Plan};
pub use arrive::step;
use head::Head;
use limits::Refusal;

// What a step leaves beside the lent tables.
#[derive(Clone, Copy, Debug, PartialEq, Eq)]
pub struct Stepped {
    pub head: Head,
    pub answer: Result<(), Refusal>,
}

// What a step will do: hints cleared, its plan, and whether the decoder is active after it.
#[derive(Clone, Copy)]
pub struct Planned {
    pub hints: Hints,
    pub plan: Plan,
    pub active: bool,
}

// What a plan has found: the path of a labelled load, 0 for none, and whether it is an array. What is written reads the
// path only where there is one, so an `Option` would have a case that none comes to.
#[derive(Clone, Copy)]
pub struct Ran {
    pub path: u32,
    pub array: bool,
}
