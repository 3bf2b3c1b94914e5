// The public call.
ghost use Rattle.head.specs.Held.{held};
ghost use Rattle.closing.specs.Words.{hand};
ghost use Rattle.closing.specs.Answer.{verdict_of};
ghost use Rattle.closing.specs.Call.{Outcome};

use crate::answer::answer;
use crate::words::fill_words;
use crate::{Closed, Closing};
use head::{Head, records_of};
use kinds::{fill, fill_missing};
use limits::{CODE_MAX, Refusal, TYPES_ROOM};
use paths::{Facts, FactsMut};
use word::U256;

// Questions 1, 2, 3, 9 and 8, the fill, and the answer. Nothing is written before the last question.
fn judge(
    head: &mut Head,
    table: &mut [u32],
    code: &[u8],
    start: u32,
    packed: Option<U256>,
    types: &mut [u16],
) -> Result<Closing, Refusal>
    ensures { Outcome (held head.old table.old) types.old
        (hand code.now start packed) (verdict_of result)
        (held head.new table.new) types.new }
{
    let records = records_of(*head, table)?;
    if CODE_MAX < code.len() {
        return Err(Refusal::LongCode);
    }
    if types.len() < TYPES_ROOM {
        return Err(Refusal::ShortTypes);
    }
    let used = head.used;
    let read = Facts {
        table,
        records,
        used,
    };
    let words = fill_words(&read, code, start, packed);
    if records - used < fill_missing(&read, words) {
        return Err(Refusal::NoRoom);
    }
    let mut facts = FactsMut {
        table,
        records,
        used,
    };
    fill(&mut facts, words);
    head.used = facts.used;
    Ok(answer(&facts.read(), types))
}

// Closes, or refuses by the first question that is answered with no.
pub fn close(
    head: Head,
    table: &mut [u32],
    code: &[u8],
    start: u32,
    packed: Option<U256>,
    types: &mut [u16],
) -> Closed
    ensures { Outcome (held head table.old) types.old
        (hand code.now start packed) (verdict_of result.answer)
        (held result.head table.new) types.new }
{
    let mut after = head;
    let answer = judge(&mut after, table, code, start, packed, types);
    Closed {
        head: after,
        answer,
    }
}
