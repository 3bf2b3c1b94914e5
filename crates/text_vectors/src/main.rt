// Runs the text call on the vectors of standard input and writes a line for each: its name, the answer, the text or, if
// it is long, its sum, and whether the bytes behind it were kept. A vector is 192 bytes: name (40), name length, runs,
// runs of the block, zero, how often the block is repeated (2), slice length (2), and up to 36 runs of two numbers of
// 16 bits: how often, and which code; the first runs are the block. Numbers are highest byte first.
// tools/text_vectors.py makes them, and the answers from a model of its own.
#![tactic(auto)]

mod report;
mod vector;

use pipe::Pipe;
use report::{fill, report};
use std::io;
use vector::{expand, room};
use vectors::{for_each, put_name};

// The call for a vector whose codes fit, on a slice that is filled first, with a number that goes by the place.
fn call(rt: &impl Print, v: &[u8; 192], codes: &mut [u16], out: &mut [u8]) -> io::Result<()> {
    fill(out);
    let Some(n) = expand(v, codes) else {
        return Ok(());
    };
    let Some(given) = codes.get(..n) else {
        return Ok(());
    };
    let Some(lent) = out.get_mut(..room(v)) else {
        return Ok(());
    };
    let answer = text::text(given, lent);
    report(rt, answer, out)
}

fn run_one(rt: &impl Print, v: &[u8; 192]) -> io::Result<()> {
    put_name(rt, &v[..40], usize::from(v[40]));
    call(rt, v, &mut [0; 8200], &mut [0; 65536])?;
    println!(rt; "")
}

fn main() {
    // `Pipe` fails at nothing
    let _ = for_each(&mut Pipe, |_, v: [u8; 192]| run_one(&Pipe, &v));
}
