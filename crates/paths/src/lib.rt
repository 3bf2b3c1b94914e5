// The paths of a table: looked up, made, and made seen. specs/ has what that does to the facts that a table stands for.
#![tactic(auto)]

mod chain;
mod depth;
mod find;
mod insert;
mod lent;
mod links;
mod make;
mod near;
mod node;
mod seen;
mod upward;

pub use chain::Chain;
pub use insert::Spot;
pub use lent::{Facts, FactsMut};
pub use links::Links;
pub use upward::Upward;
