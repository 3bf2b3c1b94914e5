// What is written.
ghost use Rattle.std.specs.Prelude.{◌≤◌};

use head::Head;
use limits::layout::{ENTRY_WIDTH, SLOT_WIDTH};
use limits::{RECORD_WIDTH, Refusal};
use std::io;

// A list of more rows is written without those that are zero.
const ROWS_MAX: usize = 64;

pub fn put_records(rt: &impl Print, records: Result<u32, Refusal>) -> io::Result<()> {
    match records {
        Ok(n) => println!(rt; " {n}"),
        Err(_) => rt.write_all(b" refused 1\n"),
    }
}

fn put_row(rt: &impl Print, letter: char, number: usize, row: &[u32]) -> io::Result<()> {
    print!(rt; "{letter} {number}:")?;
    for x in row {
        print!(rt; " {x}")?;
    }
    println!(rt; "")
}

// Each row of a list, with its letter and its number from 1, but for those of a long list that are zero. The last one
// may be short.
fn put_rows(rt: &impl Print, letter: char, width: usize, list: &[u32]) -> io::Result<()>
    requires { 1 ≤ width }
{
    let long = ROWS_MAX < list.len() / width;
    for (i, row) in list.chunks(width).enumerate() {
        if !long || row.iter().any(|x| *x != 0) {
            put_row(rt, letter, i + 1, row)?;
        }
    }
    Ok(())
}

// The answer, the head and how many numbers beyond the used records aren't zero; then the used records, the slots and
// the entries.
pub fn put_step(
    rt: &impl Print,
    answer: u32,
    head: Head,
    table: &[u32],
    stack: &[u32],
    memory: &[u32],
) -> io::Result<()> {
    let Head { used, active } = head;
    let end = table.len().min(used as usize * RECORD_WIDTH);
    let beyond = table[end..].iter().filter(|x| **x != 0).count();
    println!(rt; ": answer {answer} used {used} active {active} beyond {beyond}")?;
    put_rows(rt, 'r', RECORD_WIDTH, &table[..end])?;
    put_rows(rt, 's', SLOT_WIDTH, stack)?;
    put_rows(rt, 'm', ENTRY_WIDTH, memory)
}
