// The budget of a closing: `fits_type_budget`, a walk over the facts that calls itself for each child.
#![tactic(auto)]

mod walk;

pub use walk::fits_type_budget;

// What a record and all below it leave of the budget, and the record's last word, which the walk comes to anyway.
#[derive(Clone, Copy, Debug, PartialEq, Eq)]
pub struct Below {
    pub left: u32,
    pub last_word: u32,
}
