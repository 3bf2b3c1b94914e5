// The text, written from the left. What is open is held in a vector: 0 for an array, for a tuple the number of parts
// not yet finished.
ghost use Rattle.std.specs.Prelude.{◌≡◌, true, [], ◌+◌, ◌≤◌, ◌<◌, length};
ghost use Rattle.std.proofs.lemmas.List.Edits.{sets};
ghost use Rattle.limits.specs.Limits.{codes_max};
ghost use Rattle.names.specs.Elementary.{is_name};
ghost use Rattle.spell.specs.Writer.{Puts, SameSlice};
ghost use Rattle.types.specs.Kind.{kind_of};
ghost use Rattle.types.specs.declared.kind.CodeKind.TheVariants.{Name};
ghost use Rattle.text.specs.Machine.{closer, closers, still_open, separator, piece_by, open_by, emit, stack_of};

use arrayvec::ArrayVec;
use limits::CODES_MAX;
use spell::Writer;
use types::CodeKind;

// What is open, the innermost last.
type Held = ArrayVec<u16, CODES_MAX>;

fn put_closer(left: u16, w: &mut Writer)
    requires { w.old.to + length (closer left) ≤ length w.old.out.now }
    ensures stored { Puts (closer left) w.old w.new }
    ensures slice { SameSlice w.old w.new }
{
    if left == 0 {
        w.put(b"[]");
    } else {
        w.put(b")");
    }
}

fn put_separator(last: bool, w: &mut Writer)
    requires { w.old.to + length (separator last) ≤ length w.old.out.now }
    ensures stored { Puts (separator last) w.old w.new }
    ensures slice { SameSlice w.old w.new }
{
    if !last {
        w.put(b",");
    }
}

// A type is written: closes what it completes. No index is counted: what is open is popped until a type lacks more.
fn close(held: &mut Held, w: &mut Writer)
    requires { (length held.old.items ≤ codes_max)
        × (w.old.to + length (closers (stack_of held.old.items)) ≤ length w.old.out.now) }
    ensures stored { Puts (closers (stack_of held.old.items)) w.old w.new }
    ensures left { stack_of held.new.items ≡ still_open (stack_of held.old.items) }
    ensures no_deeper { length held.new.items ≤ length held.old.items }
    ensures slice { SameSlice w.old w.new }
{
    while let Some(left) = held.pop() {
        if 1 < left {
            held.push(left - 1);
            return;
        }
        put_closer(left, w);
    }
}

#[tactic(auto, using(spell::proofs::Stores::runs))]
fn write_name(code: u16, last: bool, held: &mut Held, w: &mut Writer)
    requires code_value { is_name code ≡ true }
    requires room { (length held.old.items ≤ codes_max)
        × (w.old.to + length (piece_by (Ok Name) (stack_of held.old.items) code last) ≤ length w.old.out.now) }
    ensures stored { Puts (piece_by (Ok Name) (stack_of held.old.items) code last) w.old w.new }
    ensures left { stack_of held.new.items ≡ open_by (Ok Name) (stack_of held.old.items) }
    ensures no_deeper { length held.new.items ≤ length held.old.items }
    ensures slice { SameSlice w.old w.new }
{
    w.put_name(u32::from(code));
    close(held, w);
    put_separator(last, w);
}

#[tactic(auto, using(crate::proofs::Stacks::codes))]
fn write_code(code: u16, last: bool, held: &mut Held, w: &mut Writer)
    requires { (length held.old.items < codes_max)
        × (w.old.to + length (piece_by (kind_of code) (stack_of held.old.items) code last) ≤ length w.old.out.now) }
    ensures stored { Puts (piece_by (kind_of code) (stack_of held.old.items) code last) w.old w.new }
    ensures left { stack_of held.new.items ≡ open_by (kind_of code) (stack_of held.old.items) }
    ensures deeper_by_one { length held.new.items ≤ length held.old.items + 1 }
    ensures slice { SameSlice w.old w.new }
{
    match CodeKind::try_from(code) {
        Ok(CodeKind::Name) => write_name(code, last, held, w),
        Ok(CodeKind::Array) => held.push(0),
        Ok(CodeKind::Tuple(n)) => {
            held.push(n);
            w.put(b"(");
        }
        Err(_) => {}
    }
}

fn write_codes(codes: &[u16], w: &mut Writer)
    requires { (length codes.now ≤ codes_max) × (w.old.to + length (emit [] codes.now) ≤ length w.old.out.now) }
    ensures stored { Puts (emit [] codes.now) w.old w.new }
    ensures slice { SameSlice w.old w.new }
{
    let mut held = Held::new();
    for (i, &code) in codes.iter().enumerate() {
        write_code(code, i + 1 == codes.len(), &mut held, w);
    }
}

// At most 8,192 codes, whose text fits.
pub fn write_list(codes: &[u16], out: &mut [u8])
    requires { (length codes.now ≤ codes_max) × (length (emit [] codes.now) ≤ length out.old) }
    ensures { out.new ≡ sets out.old 0 (emit [] codes.now) }
{
    let mut w = Writer::new(out);
    write_codes(codes, &mut w);
}
