// The text of a name, and a number in decimal, stored in a slice. Nothing here knows of arrays or tuples.
#![tactic(auto)]

mod name;
mod writer;

pub use name::name_length;
pub use writer::Writer;
