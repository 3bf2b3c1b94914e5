// What a step does, as data and as definitions: specs/ is the Rust's `analyze`, phase by phase and arm by arm. A step
// is a plan: operations on the facts, at most one thing that is written to the stack and one to the memory. The crate
// `arms` makes the plan, and `step` runs it.
#![tactic(auto)]

ghost use Rattle.std.specs.Prelude.{◌≡◌};
ghost use Rattle.analyze.specs.Plan.{loaded_arg};

use labels::{Label, Val};
use operations::Operation;
use word::U256;

// A comparison of an argument with a bound: value < bound where `less_than` is set, value > bound where it is not.
#[derive(Clone, Copy, Debug, PartialEq, Eq)]
pub struct Comparison {
    pub val: Val,
    pub bound: U256,
    pub less_than: bool,
}

// What is written to the stack: to the top slot, and for `Ones` first to each slot that holds the length at a path.
#[derive(Clone, Copy, Debug, PartialEq, Eq)]
pub enum OnStack {
    Keep,
    Word(u32),
    Label(Label),
    WordLabel(u32, Label),
    // the label of what a labelled load found, with that offset
    Loaded(u32),
    // a path, and the word on top: the multiplier
    Ones(u32, u32),
}

// What is written to the memory: to the entry that was picked, and for `Ones` to each entry that holds the length at a
// path.
#[derive(Clone, Copy, Debug, PartialEq, Eq)]
pub enum InMemory {
    Keep,
    // pick, label
    Label(u32, Label),
    // pick, offset
    Loaded(u32, u32),
    // path
    Ones(u32),
}

// What a step does behind its first phase, three operations at most.
#[derive(Clone, Copy, Debug, PartialEq, Eq)]
pub struct Plan {
    pub first: Operation,
    pub second: Operation,
    pub third: Operation,
    pub stack: OnStack,
    pub memory: InMemory,
}

// The first phase: hints cleared, at most those of two operands.
#[derive(Clone, Copy, Debug, PartialEq, Eq)]
pub struct Hints {
    pub first: Operation,
    pub second: Operation,
}

// The label of an argument, nothing added and no mask.
pub fn loaded_arg(offset: u32, path: u32) -> Label
    ensures { result ≡ loaded_arg offset path }
{
    Label::Arg(Val {
        offset,
        path,
        add_val: 0,
        and_mask: None,
    })
}
