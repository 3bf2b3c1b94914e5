// Runs the leaves on the vectors of standard input and writes a line for each: its name, and what the leaf answers. A
// vector is 192 bytes: name (40), kind, code length, flag, name length, number (4), word (32), second word (32), code
// (80); numbers and words are highest byte first. tools/leaf_vectors.py makes them, and the answers from a model of its
// own.
#![tactic(auto)]

mod answer;
mod leaf;
mod vector;

use answer::answer;
use pipe::Pipe;
use std::io;
use vectors::{for_each, put_name};

fn run_one(rt: &impl Print, v: &[u8; 192]) -> io::Result<()> {
    put_name(rt, &v[..40], usize::from(v[43]));
    answer(rt, v)?;
    println!(rt; "")
}

fn main() {
    // `Pipe` fails at nothing
    let _ = for_each(&mut Pipe, |_, v: [u8; 192]| run_one(&Pipe, &v));
}
