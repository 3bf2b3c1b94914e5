// One trace of the trace printer, from its bytes to its lines: header, code, then group by group while the steps are
// taken, and the closing. A group is read whole before its step is put. What is held is one group and the table,
// whatever the number of steps.
#![tactic(auto)]

mod answer;
mod group;
mod run;

use limits::Refusal;
pub use run::print_trace;
use std::io;

// What ends a trace before its closing.
#[derive(Clone, Copy)]
enum Stop {
    // The bytes are no trace, or end before it does.
    BadInput,
    // A step, from 1, was refused.
    Refused { refusal: Refusal, step: u32 },
}

// An input that can't be read is one that ends.
impl From<io::Error> for Stop {
    fn from(_error: io::Error) -> Stop {
        Stop::BadInput
    }
}
