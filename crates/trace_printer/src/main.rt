// The trace printer: reads a trace from standard input, takes its steps and its closing, and writes the list, or why
// there is none.
#![tactic(auto)]

use pipe::Pipe;
use printing::print_trace;

fn main() {
    print_trace(&Pipe, &mut Pipe);
}
