// Type codes: what each number says. The trees that they stand for, and their text, are in specs/.
#![tactic(auto)]

mod kind;

pub use kind::{CodeKind, UnknownCode};
