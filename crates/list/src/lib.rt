// What the closing's walks look at: a fact's seen children. specs/ has the budget and the list, as definitions over the
// facts.
#![tactic(auto)]

mod seen;

pub use seen::{is_childless, last_word, seen_children};

// A fact's seen children: how many there are, and the last one's key and kind, 0 without one.
#[derive(Clone, Copy, Debug, PartialEq, Eq)]
pub struct Children {
    pub count: u32,
    pub last_key: u32,
    pub last_kind: u32,
}
