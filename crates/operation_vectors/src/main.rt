// Performs the lists of operations of standard input, each on a fresh table, and writes a line for each operation: its
// number, its answer or `skipped`, how many records are used then, and whether the table is sound; and all used records
// after each list. An entry is 24 bytes: six numbers of 32 bits, highest byte first. A list begins with an entry of a
// zero, how many records its table has and how many operations follow; each of them is an entry of the operation's
// number (operation.rt) and its arguments. tools/operation_vectors.py makes the lists, and the answers from a model of
// its own.
#![tactic(auto)]

mod answer;
mod ask;
mod change;
mod list;
mod operation;
mod perform;
mod report;

use limits::input::TRACE_NUMBERS;
use list::run_part;
use pipe::Pipe;
use std::io;
use std::io::Read;
use vectors::{for_each, numbers};

fn run_one(rt: &impl Print, input: &mut impl Read, entry: &[u8; 24]) -> io::Result<()> {
    let [_, records, count, _, _, _]: [u32; 6] = numbers(entry);
    let mut table = [0u32; TRACE_NUMBERS];
    run_part(rt, input, &mut table, records, count)
}

fn main() {
    // `Pipe` fails at nothing
    let _ = for_each(
        &mut Pipe,
        |input, entry: [u8; 24]| run_one(&Pipe, input, &entry),
    );
}
