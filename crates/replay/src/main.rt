// Replays the traces of standard input, each as the trace printer does, and writes for each its name and the printer's
// lines.
//
// A trace is a name (40 bytes), the name's length and the number of the trace's bytes (u32, lowest byte first), and
// these bytes in runs, as many as it takes: how
// many zeros, how many other bytes (a byte each), and these. tools/replay.py makes the traces, and the lines from a
// model of its own.
#![tactic(auto)]

mod runs;

use pipe::Pipe;
use printing::print_trace;
use runs::Runs;
use std::io;
use std::io::Read;
use vectors::{for_each, put_name};

// The next number, lowest byte first. Unlike the number of `vectors`, one that the input ends in keeps its first bytes.
fn read_number(input: &mut impl Read) -> u32 {
    let mut bytes = [0u8; 4];
    let _ = input.read_exact(&mut bytes);
    u32::from_le_bytes(bytes)
}

fn replay_one(rt: &impl Print, input: &mut impl Read, name: &[u8; 40]) -> io::Result<()> {
    let n = read_number(input) as usize;
    // a length past its field counts for none
    if n < name.len() {
        put_name(rt, name, n);
    }
    println!(rt; "")?;
    let left = read_number(input);
    let mut trace = Runs::new(input, left);
    print_trace(rt, &mut trace);
    trace.skip();
    Ok(())
}

fn main() {
    // `Pipe` fails at nothing
    let _ = for_each(
        &mut Pipe,
        |input, name: [u8; 40]| replay_one(&Pipe, input, &name),
    );
}
