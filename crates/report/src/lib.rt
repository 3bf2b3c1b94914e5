// What is printed of a closing, on slices: `refused N at 0`, `none`, `over` or the list.
#![tactic(auto)]

ghost use Rattle.std.specs.Prelude.{◌+◌, ◌≤◌, Ok, length};
ghost use Rattle.limits.specs.Limits.{codes_max};
ghost use Rattle.spell.specs.Writer.{SameSlice};
ghost use Rattle.trace.specs.Lines.{list_room};
ghost use Rattle.head.specs.Held.{held};
ghost use Rattle.closing.specs.Words.{hand};
ghost use Rattle.closing.specs.Answer.{verdict_of};
ghost use Rattle.report.specs.Closed.{Reported, Printed};

use by_reference::run_close;
use closing::Closing;
use head::Head;
use limits::Refusal;
use spell::Writer;
use trace::{put_list, put_refused};
use word::U256;

// What a closing that is printed leaves beside the lent slices: the head, and how many bytes were stored.
#[derive(Clone, Copy)]
pub struct ClosedInto {
    pub head: Head,
    pub length: usize,
}

// Stores the lines of what is said of a list: "else `none`, `over` or the list".
fn put_said(said: Closing, types: &[u16], w: &mut Writer)
    requires { (length types.now ≤ codes_max) × (w.old.to + list_room ≤ length w.old.out.now) }
    ensures reported { Reported (verdict_of (Ok said)) types.now w.old.out.now w.old.to w.new.to w.new.out.now }
    ensures slice { SameSlice w.old w.new }
{
    match said {
        Closing::Nothing => w.put(b"none\n"),
        Closing::Over => w.put(b"over\n"),
        Closing::Granted(granted) => put_list(
            w,
            granted.entries,
            granted.left,
            granted.length,
            types,
        ),
    }
}

// Stores the lines of an answer.
fn put_answer(answer: Result<Closing, Refusal>, types: &[u16], w: &mut Writer)
    requires { (length types.now ≤ codes_max) × (w.old.to + list_room ≤ length w.old.out.now) }
    ensures reported { Reported (verdict_of answer) types.now w.old.out.now w.old.to w.new.to w.new.out.now }
    ensures slice { SameSlice w.old w.new }
{
    match answer {
        Ok(said) => put_said(said, types, w),
        Err(refusal) => put_refused(w, u32::from(refusal), 0),
    }
}

// Closes, and stores what is printed of it at the start of the slice. It takes what the closing takes, and room: a
// struct around what is lent would be no plainer.
pub fn close_into(
    head: Head,
    table: &mut [u32],
    code: &[u8],
    start: u32,
    packed: Option<U256>,
    types: &mut [u16],
    out: &mut [u8],
) -> ClosedInto
    requires { (length types.old ≤ codes_max) × (list_room ≤ length out.old) }
    ensures printed { Printed (held head table.old) types.old
        (hand code.now start packed) out.old result.length out.new
        (held result.head table.new) types.new }
    ensures length_in_bounds { result.length ≤ length out.new }
{
    let closed = run_close(head, table, code, start, packed, types);
    let mut w = Writer::new(out);
    put_answer(closed.answer, types, &mut w);
    ClosedInto {
        head: closed.head,
        length: w.to,
    }
}
