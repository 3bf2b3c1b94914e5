// The text call: the canonical text of a list of types, from its codes.
#![tactic(auto)]

mod call;
mod count;
mod write;

pub use call::text;
