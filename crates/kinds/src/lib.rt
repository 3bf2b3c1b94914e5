// Kinds and counts of the facts, and the closing's fill of the head. specs/ has each operation over the state that a
// table stands for.
#![tactic(auto)]

mod dynamic;
mod filling;
mod info;

pub use dynamic::has_dynamic;
pub use filling::{fill, fill_missing};
pub use info::{arrays_in_path, set_array, set_dynamic};
