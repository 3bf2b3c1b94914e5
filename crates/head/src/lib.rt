// The head that goes along with every call; questions 1 and 2, which the step and the closing ask of it and of the
// table; and the fresh call, which makes both.
#![tactic(auto)]

mod admit;
mod opening;

pub use admit::records_of;
use limits::Refusal;
pub use opening::fresh;

// "Beside it, the head (records used, decoder active) goes along with every call." Decoder active is 0 or 1; a larger
// number is refused by 2.
#[derive(Clone, Copy, Debug, PartialEq, Eq)]
pub struct Head {
    pub used: u32,
    pub active: u32,
}

// What a fresh call leaves beside the lent table.
#[derive(Clone, Copy, Debug, PartialEq, Eq)]
pub struct Opened {
    pub head: Head,
    pub answer: Result<u32, Refusal>,
}
