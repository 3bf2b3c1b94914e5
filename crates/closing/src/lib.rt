// The closing: refused by one of the questions 1, 2, 3, 9 and 8, in this order, with everything left unchanged; or
// none, over, or granted with its list.
#![tactic(auto)]

mod answer;
mod arrive;
mod words;

pub use arrive::close;
use head::Head;
use limits::Refusal;

// "granted with entry count, budget left and head length".
#[derive(Clone, Copy, Debug, PartialEq, Eq)]
pub struct Granted {
    pub entries: u32,
    pub left: u32,
    pub length: u32,
}

// What is said of the list. Nothing is the paper's "none".
#[derive(Clone, Copy, Debug, PartialEq, Eq)]
pub enum Closing {
    Nothing,
    Over,
    Granted(Granted),
}

// What a closing leaves beside the lent slices.
#[derive(Clone, Copy, Debug, PartialEq, Eq)]
pub struct Closed {
    pub head: Head,
    pub answer: Result<Closing, Refusal>,
}

// The root's dynamic children: none, one, or more.
#[derive(Clone, Copy, Debug, PartialEq, Eq)]
pub enum Dynamics {
    Nothing,
    One(u32),
    More,
}
