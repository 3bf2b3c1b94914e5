// The public call.
ghost use Rattle.limits.specs.Refusal.{answer_number};
ghost use Rattle.head.specs.Held.{held};
ghost use Rattle.step.specs.Call.{Outcome, lend};
ghost use Rattle.step.specs.Decide.{head_after};

use crate::Stepped;
use crate::deciding::decide;
use crate::running::{run_hints, run_plan};
use crate::writing::{write_memory, write_stack};
use head::{Head, records_of};
use limits::Refusal;
use paths::{Facts, FactsMut};

// The head after a step that is taken: the table is written first, then the stack, then the memory.
fn take(
    head: Head,
    table: &mut [u32],
    code: &[u8],
    stack: &mut [u32],
    memory: &mut [u32],
    numbers: &[u32],
) -> Result<Head, Refusal>
    ensures { Outcome (lend (held head table.old) stack.old memory.old)
        code.now numbers.now (answer_number result)
        (lend (held (head_after head result) table.new) stack.new memory.new) }
{
    let records = records_of(head, table)?;
    let used = head.used;
    let read = Facts {
        table,
        records,
        used,
    };
    let planned = decide(&read, head.active, code, stack, memory, numbers)?;
    let plan = planned.plan;
    let mut facts = FactsMut {
        table,
        records,
        used,
    };
    run_hints(&mut facts, planned.hints);
    let ran = run_plan(&mut facts, plan);
    write_stack(stack, plan.stack, ran);
    write_memory(memory, plan.memory, ran);
    Ok(Head {
        used: facts.used,
        active: u32::from(planned.active),
    })
}

// Takes a step, or refuses it by the first question that is answered with no.
pub fn step(
    head: Head,
    table: &mut [u32],
    code: &[u8],
    stack: &mut [u32],
    memory: &mut [u32],
    numbers: &[u32],
) -> Stepped
    ensures { Outcome (lend (held head table.old) stack.old memory.old)
        code.now numbers.now (answer_number result.answer)
        (lend (held result.head table.new) stack.new memory.new) }
{
    match take(head, table, code, stack, memory, numbers) {
        Ok(after) => Stepped {
            head: after,
            answer: Ok(()),
        },
        Err(refusal) => Stepped {
            head,
            answer: Err(refusal),
        },
    }
}
