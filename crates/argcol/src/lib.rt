// Functions for a host in Rust or C: the fresh call, the step, the closing and the text call, on numbers and slices
// alone, and their version. Each call only converts, and calls the core's own. None asks anything of its numbers. What
// it returns is document 01's number of the refusal, 0 for a call that is taken; a refused call leaves the head and the
// lent slices unchanged. `argcol.h` beside src/ declares them for C: a slice is a pointer and a length there.
#![tactic(auto)]

mod convert;

ghost use Rattle.std.specs.Prelude.{◌≡◌};
ghost use Rattle.step.specs.Call.{Outcome as StepOutcome, lend};
ghost use Rattle.argcol.specs.Numbers.{gather, hand_numbers, values, FreshOutcome, ClosingOutcome, TextOutcome};
ghost use Rattle.argcol.specs.Version.{version};

use closing::close;
use convert::{read_packed, text_length, values_after};
use head::{Head, fresh};
use limits::answer_number;
use step::step;
use text::text;

// The version of these functions: `ARGCOL_VERSION` of `argcol.h`, and of the library for a Rust host.
const VERSION: u32 = 1;

// The values of a closing's answer, which a host lends. Kind is 1 for none, 2 for over, 3 for granted; the others are 0
// unless it is granted.
#[derive(Clone, Copy)]
pub struct Values {
    pub kind: u32,
    pub entries: u32,
    pub left: u32,
    pub length: u32,
}

// The version, which a host compares with that of its header before any other call.
pub fn argcol_version() -> u32
    ensures { result ≡ version }
{
    VERSION
}

// The fresh call.
pub fn argcol_fresh(used: &mut u32, active: &mut u32, table: &mut [u32]) -> u32
    ensures { FreshOutcome (gather used.old active.old table.old) result
        (gather used.new active.new table.new) }
{
    let head = Head {
        used: *used,
        active: *active,
    };
    let opened = fresh(head, table);
    *used = opened.head.used;
    *active = opened.head.active;
    answer_number(&opened.answer)
}

// The step.
pub fn argcol_step(
    used: &mut u32,
    active: &mut u32,
    table: &mut [u32],
    code: &[u8],
    stack: &mut [u32],
    memory: &mut [u32],
    numbers: &[u32],
) -> u32
    ensures { StepOutcome
        (lend (gather used.old active.old table.old)
        stack.old memory.old)
        code.now numbers.now result
        (lend (gather used.new active.new table.new)
        stack.new memory.new) }
{
    let head = Head {
        used: *used,
        active: *active,
    };
    let stepped = step(head, table, code, stack, memory, numbers);
    *used = stepped.head.used;
    *active = stepped.head.active;
    answer_number(&stepped.answer)
}

// The closing. The packed word is there unless flag is 0. The last four are lent for the answer's values; only a call
// that is taken writes them.
pub fn argcol_closing(
    used: &mut u32,
    active: &mut u32,
    table: &mut [u32],
    code: &[u8],
    start: u32,
    flag: u32,
    word: &[u32; 8],
    types: &mut [u16],
    kind: &mut u32,
    entries: &mut u32,
    left: &mut u32,
    length: &mut u32,
) -> u32
    ensures { ClosingOutcome (gather used.old active.old table.old)
        types.old (hand_numbers code.now start flag word.now)
        (values kind.old entries.old left.old length.old) result
        (gather used.new active.new table.new) types.new
        (values kind.new entries.new left.new length.new) }
{
    let head = Head {
        used: *used,
        active: *active,
    };
    let lent = Values {
        kind: *kind,
        entries: *entries,
        left: *left,
        length: *length,
    };
    let closed = close(head, table, code, start, read_packed(flag, word), types);
    let values = values_after(closed.answer, lent);
    *used = closed.head.used;
    *active = closed.head.active;
    *kind = values.kind;
    *entries = values.entries;
    *left = values.left;
    *length = values.length;
    answer_number(&closed.answer)
}

// The text call. The length is lent for the answer's value; only a call that is taken writes it.
pub fn argcol_text(codes: &[u16], out: &mut [u8], length: &mut usize) -> u32
    ensures { TextOutcome codes.now out.old length.old result
        out.new length.new }
{
    let answer = text(codes, out);
    *length = text_length(answer, *length);
    answer_number(&answer)
}
