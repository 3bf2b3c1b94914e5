// Names, not-bool marks and range hints of the facts, under the Rust's names. specs/ has each operation over the state
// that a table stands for.
#![tactic(auto)]

mod hint;
mod name;
mod walk;

pub use hint::{clear_range_hint, has_range_hint};
pub use name::{insert_not_bool, mark_not_bool, set_tname};
pub use walk::clear_range_hints;
