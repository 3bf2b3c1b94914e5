// Performs the steps of standard input, trace by trace, each trace on a fresh table with the head { used 1, active 1 },
// and writes what became of them:
// for each trace its name, how many numbers its table has and how many records the fresh call counted, or `refused 1`;
// then for each step its number,
// the answer's (0 taken), used, active and how many numbers beyond the used records aren't zero, and below it what the
// step left, a line for each used
// record (r), slot (s) and memory entry (m), with its number from 1. Of more than 64 records, slots or entries those
// that are zero are left out.
//
// Numbers are u32, lowest byte first. A trace is a name (40 bytes), the name's length, how many numbers the table has,
// how many steps follow, and these.
// A step is: whether the head is replaced first (1, and used and active of the new one) or not (0); the pairs of the
// table, which are stored before the
// step is put and stay; the code; then three lists, the stack, the memory and the step. Pairs are their count, and
// index and value for each. The code is its
// length, from where on its bytes are given, how many, and these; the others are zero. A list is its length and its
// pairs; the others are zero.
// tools/step_vectors.py makes the traces, and the lines from a model of its own.
#![tactic(auto)]

mod input;
mod report;
mod run;

use pipe::Pipe;
use run::run_trace;
use std::io;
use std::io::Read;
use vectors::{for_each, put_name, read_number};

// Numbers of one record more than the largest table, so that a table can be too long.
const TABLE_ROOM: usize = 180235;

fn run_one(rt: &impl Print, input: &mut impl Read, name: &[u8; 40]) -> io::Result<()> {
    let n = read_number(input) as usize;
    // a length past its field counts for none
    if n < name.len() {
        put_name(rt, name, n);
    }
    let length = read_number(input);
    print!(rt; " {length}")?;
    let mut table = [0u32; TABLE_ROOM];
    match table.get_mut(..length as usize) {
        Some(table) => run_trace(rt, input, table),
        None => Ok(()),
    }
}

fn main() {
    // `Pipe` fails at nothing
    let _ = for_each(
        &mut Pipe,
        |input, name: [u8; 40]| run_one(&Pipe, input, &name),
    );
}
