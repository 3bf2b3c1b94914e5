// A group of the trace printer's input, on slices: are its bytes a whole one, and the step call with its parts. Nothing
// here reads or writes a file.
#![tactic(auto)]

mod take;
mod whole;

pub use take::take_group;
