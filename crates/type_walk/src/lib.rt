// The type walk: `to_alloy_type`, which writes the codes of the list to a slice. It goes along the children once, and
// calls itself for those that have words of their own.
#![tactic(auto)]

mod ahead;
mod leaves;
mod write;

pub use write::write_words;

// How the codes of a fact's type are written: two codes ahead at most, and then those of some of its words.
#[derive(Clone, Copy)]
pub struct Plan {
    pub first: Option<u32>,
    pub second: Option<u32>,
    pub start: u32,
    pub words: u32,
}

// What is left of a fact's codes behind those ahead: so many of its words from one on, and the index at which they
// begin.
#[derive(Clone, Copy)]
pub struct Rest {
    pub start: u32,
    pub words: u32,
    pub to: usize,
}
