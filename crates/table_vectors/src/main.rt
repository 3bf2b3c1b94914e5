// Puts questions 1 and 2 to the tables of standard input and writes a line for each: its name, and `taken`, `refused 1`
// or `refused 2`. A vector is 576 bytes: name (40), name length, how many numbers, two zeros, used (4), and 132 numbers
// of 32 bits, of which the first ones are the table; numbers are highest byte first. tools/table_vectors.py makes them,
// and the answers from a model of its own.
#![tactic(auto)]

mod vector;

use pipe::Pipe;
use std::io;
use vector::{count, table, used};
use vectors::{for_each, put_name};

fn answer(table: &[u32], used: u32) -> &'static str {
    let Ok(n) = facts::record_count(table.len()) else {
        return " refused 1";
    };
    if facts::is_sound(table, n, used) {
        " taken"
    } else {
        " refused 2"
    }
}

fn run_one(rt: &impl Print, v: &[u8; 576]) -> io::Result<()> {
    // a length past its field counts for none
    let length = usize::from(v[40]);
    if length < 40 {
        put_name(rt, &v[..40], length);
    }
    if let Some(table) = table(v).get(..count(v)) {
        print!(rt; "{}", answer(table, used(v)))?;
    }
    println!(rt; "")
}

fn main() {
    // `Pipe` fails at nothing
    let _ = for_each(&mut Pipe, |_, v: [u8; 576]| run_one(&Pipe, &v));
}
