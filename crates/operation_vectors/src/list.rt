// One list of operations on a fresh table.
ghost use Rattle.paths.specs.Lent.{IsSameTable};

use crate::operation::Operation;
use crate::perform::perform;
use crate::report::{put_records, tell};
use limits::{RECORD_WIDTH, Refusal};
use paths::{Facts, FactsMut};
use std::io;
use std::io::Read;
use vectors::{Vector, numbers};

// The next operation, at most the ones of the input.
fn run_next(rt: &impl Print, input: &mut impl Read, facts: &mut FactsMut) -> io::Result<()>
    ensures { IsSameTable facts.old facts.new }
{
    let Ok(bytes) = <[u8; 24]>::read(input) else {
        return Ok(());
    };
    let entry = numbers(&bytes);
    let answer = perform(facts, Operation::from(entry));
    print!(rt; " {}{answer}", entry[0])?;
    tell(rt, &facts.read())
}

fn run_operations(
    rt: &impl Print,
    input: &mut impl Read,
    facts: &mut FactsMut,
    count: u32,
) -> io::Result<()> {
    for _ in 0..count {
        run_next(rt, input, facts)?;
    }
    put_records(rt, &facts.read())
}

// The facts of a fresh table, if the call takes it.
fn fresh(table: &mut [u32]) -> Result<FactsMut<'_>, Refusal> {
    let records = facts::fresh(table)?;
    Ok(FactsMut {
        table,
        records,
        used: 1,
    })
}

fn run_list(
    rt: &impl Print,
    input: &mut impl Read,
    table: &mut [u32],
    count: u32,
) -> io::Result<()> {
    let Ok(mut facts) = fresh(table) else {
        return rt.write_all(b" refused 1\n");
    };
    println!(rt; " {}", facts.records)?;
    run_operations(rt, input, &mut facts, count)
}

// The list on the first records of the table.
pub fn run_part(
    rt: &impl Print,
    input: &mut impl Read,
    table: &mut [u32],
    records: u32,
    count: u32,
) -> io::Result<()> {
    print!(rt; "list of")?;
    match table.get_mut(..records as usize * RECORD_WIDTH) {
        Some(part) => run_list(rt, input, part, count),
        None => rt.write_all(b" too many records\n"),
    }
}
