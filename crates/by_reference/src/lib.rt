// The head lent by `&mut`: "the head (records used, decoder active) goes along with every call". Each thin function takes
// it apart, calls the by-value core, and stores what the core's head has: the form that document 01 names. Above the
// step and the closing stands one function with plain parameters (`by_value.rt`), by which programs go through them. A
// contract here is its core's, `Outcome` of the names in this place: a definition for its arguments would be one more to
// believe, and no plainer.
#![tactic(auto)]

mod by_value;

ghost use Rattle.limits.specs.Refusal.{answer_number};
ghost use Rattle.facts.specs.Fresh.{count_of};
ghost use Rattle.head.specs.Held.{held};
ghost use Rattle.head.specs.Fresh.{Outcome as FreshOutcome};
ghost use Rattle.step.specs.Call.{Outcome, lend};
ghost use Rattle.closing.specs.Words.{hand};
ghost use Rattle.closing.specs.Answer.{verdict_of};
ghost use Rattle.closing.specs.Call.{Outcome as ClosingOutcome};

pub use by_value::{run_close, run_step};
use closing::Closing;
use head::Head;
use limits::Refusal;
use word::U256;

// Leaves a lone root, the other records zero, and the decoder active; or refuses a table that question 1 doesn't take.
pub fn fresh(head: &mut Head, table: &mut [u32]) -> Result<u32, Refusal>
    ensures { FreshOutcome (held head.old table.old) (answer_number result) (count_of result)
        (held head.new table.new) }
{
    let Head { used, active } = *head;
    let opened = head::fresh(Head { used, active }, table);
    head.used = opened.head.used;
    head.active = opened.head.active;
    opened.answer
}

// Takes a step, or refuses it by the first question that is answered with no.
pub fn step(
    head: &mut Head,
    table: &mut [u32],
    code: &[u8],
    stack: &mut [u32],
    memory: &mut [u32],
    numbers: &[u32],
) -> Result<(), Refusal>
    ensures { Outcome
        (lend (held head.old table.old) stack.old memory.old)
        code.now numbers.now (answer_number result)
        (lend (held head.new table.new) stack.new memory.new) }
{
    let Head { used, active } = *head;
    let before = Head { used, active };
    let stepped = step::step(before, table, code, stack, memory, numbers);
    head.used = stepped.head.used;
    head.active = stepped.head.active;
    stepped.answer
}

// Closes, or refuses by the first question that is answered with no.
pub fn close(
    head: &mut Head,
    table: &mut [u32],
    code: &[u8],
    start: u32,
    packed: Option<U256>,
    types: &mut [u16],
) -> Result<Closing, Refusal>
    ensures { ClosingOutcome (held head.old table.old) types.old
        (hand code.now start packed) (verdict_of result)
        (held head.new table.new) types.new }
{
    let Head { used, active } = *head;
    let before = Head { used, active };
    let closed = closing::close(before, table, code, start, packed, types);
    head.used = closed.head.used;
    head.active = closed.head.active;
    closed.answer
}
