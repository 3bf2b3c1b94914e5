// What the step and the closing read in the code. A place past the end of the code holds no byte: nothing is read
// there, and no sum of places wraps, since a pc is at most 2^32 - 1.
#![tactic(auto)]

mod bytes;
mod dense;
mod guard;
mod length;
mod revert;
mod target;

pub use dense::dense_min_calldata_words;
pub use guard::{guard_failure_pc, is_division_check, is_empty_revert_guard};
pub use length::direct_min_calldata_words;

// A jump whose target is pushed just before it: where it leads, and the place behind it.
#[derive(Clone, Copy, Debug, PartialEq, Eq)]
pub struct Jump {
    pub target: u32,
    pub next: usize,
}
