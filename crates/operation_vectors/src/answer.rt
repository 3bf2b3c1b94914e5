// What an operation answers.
use std::fmt;

#[derive(Clone, Copy)]
pub enum Answer {
    Done,
    Number(u32),
    Truth(bool),
    Skipped,
}

impl fmt::Display for Answer {
    fn fmt<W: fmt::Write>(&self, f: &mut fmt::Formatter<W>) -> fmt::Result {
        match self {
            Answer::Done => Ok(()),
            Answer::Number(n) => write!(f, " {n}"),
            Answer::Truth(true) => f.write_str(" yes"),
            Answer::Truth(false) => f.write_str(" no"),
            Answer::Skipped => f.write_str(" skipped"),
        }
    }
}
