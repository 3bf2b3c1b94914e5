// The lines, each stored behind what is written.
ghost use Rattle.std.specs.Prelude.{◌+◌, ◌≤◌, length};
ghost use Rattle.spell.specs.Writer.{Puts, SameSlice};
ghost use Rattle.trace.specs.Text.{args_line, refused_line};
ghost use Rattle.trace.specs.Lines.{line_room, EntryStored};

use spell::Writer;
use text::text;

// Room for any line: a type of 8,192 codes has at most nine bytes of text for each.
pub const LINE_ROOM: usize = 73760;

// The first line of a list, as "args 1 left 8189 head 32".
#[tactic(auto, using(names::proofs::Decimals::decimal_short))]
pub fn put_args(w: &mut Writer, entries: u32, left: u32, head: u32)
    requires { w.old.to + line_room ≤ length w.old.out.now }
    ensures stored { Puts (args_line entries left head) w.old w.new }
    ensures slice { SameSlice w.old w.new }
{
    w.put_numbered(b"args ", entries);
    w.put_numbered(b" left ", left);
    w.put_numbered(b" head ", head);
    w.put(b"\n");
}

// The line of a refusal, "refused N at S".
#[tactic(auto, using(names::proofs::Decimals::decimal_short))]
pub fn put_refused(w: &mut Writer, number: u32, step: u32)
    requires { w.old.to + line_room ≤ length w.old.out.now }
    ensures stored { Puts (refused_line number step) w.old w.new }
    ensures slice { SameSlice w.old w.new }
{
    w.put_numbered(b"refused ", number);
    w.put_numbered(b" at ", step);
    w.put(b"\n");
}

// An entry's number and the text of its type. Codes that are those of no types give no line.
#[tactic(auto, using(names::proofs::Decimals::decimal_short))]
pub fn put_entry(w: &mut Writer, k: u32, codes: &[u16])
    requires { w.old.to + line_room ≤ length w.old.out.now }
    ensures entry_stored { EntryStored k codes.now w.old.out.now w.old.to w.new.to w.new.out.now }
    ensures onward { w.old.to ≤ w.new.to }
    ensures slice { SameSlice w.old w.new }
{
    let start = w.to;
    w.put_decimal(k);
    w.put(b" ");
    match text(codes, &mut w.out[w.to..]) {
        Ok(length) => {
            w.to += length;
            w.put(b"\n");
        }
        Err(_) => w.to = start,
    }
}
