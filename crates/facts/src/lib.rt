// The fact table: its records, questions 1 and 2, and a fresh table. specs/ has the state that a table stands for.
#![tactic(auto)]

mod count;
mod fact;
mod links;
mod sound;
mod start;
mod table;

pub use count::record_count;
pub use sound::is_sound;
pub use start::fresh;
pub use table::{field, set_field};
