// One trace, step by step.
use crate::input::{read_code, read_head, read_list, read_pairs};
use crate::report::{put_records, put_step};
use head::Head;
use limits::answer_number;
use std::io;
use std::io::Read;
use vectors::read_number;

// Room for more than the largest lists, so that they can be too long.
const CODE_ROOM: usize = 65540;

const STACK_ROOM: usize = 21546;

const MEMORY_ROOM: usize = 15390;

const STEP_ROOM: usize = 64;

// Takes or refuses the step, by the head that is lent, and writes what it left. The step's lists are read behind its
// code.
fn run_lists(
    rt: &impl Print,
    input: &mut impl Read,
    head: Head,
    table: &mut [u32],
    code: &[u8],
) -> io::Result<Head> {
    let mut stack = [0u32; STACK_ROOM];
    let mut memory = [0u32; MEMORY_ROOM];
    let mut numbers = [0u32; STEP_ROOM];
    let stack = read_list(input, &mut stack);
    let memory = read_list(input, &mut memory);
    let numbers = read_list(input, &mut numbers);
    let stepped = by_reference::run_step(head, table, code, stack, memory, numbers);
    let number = answer_number(&stepped.answer);
    put_step(rt, number, stepped.head, table, stack, memory)?;
    Ok(stepped.head)
}

fn run_step(
    rt: &impl Print,
    input: &mut impl Read,
    handed: Head,
    table: &mut [u32],
) -> io::Result<Head> {
    let head = read_head(input, handed);
    read_pairs(input, table);
    let mut code = [0u8; CODE_ROOM];
    let code = read_code(input, &mut code);
    run_lists(rt, input, head, table, code)
}

pub fn run_trace(rt: &impl Print, input: &mut impl Read, table: &mut [u32]) -> io::Result<()> {
    put_records(rt, facts::fresh(table))?;
    let mut head = Head { used: 1, active: 1 };
    for i in 0..read_number(input) {
        print!(rt; "step {}", i + 1)?;
        head = run_step(rt, input, head, table)?;
    }
    Ok(())
}
