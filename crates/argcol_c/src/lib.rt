// The exports of the archive `libargcol.a`: each calls the function of `argcol` that has its name, and says what it says.
// `argcol.h` in crates/argcol declares them for C. C's interface needs each as a function of its own, so that each says
// its contract again.
#![tactic(auto)]

ghost use Rattle.std.specs.Prelude.{◌≡◌};
ghost use Rattle.step.specs.Call.{Outcome as StepOutcome, lend};
ghost use Rattle.argcol.specs.Numbers.{gather, hand_numbers, values, FreshOutcome, ClosingOutcome, TextOutcome};
ghost use Rattle.argcol.specs.Version.{version};

#[unsafe(no_mangle)]
pub extern "C" fn argcol_version() -> u32
    ensures { result ≡ version }
{
    argcol::argcol_version()
}

#[unsafe(no_mangle)]
pub extern "C" fn argcol_fresh(used: &mut u32, active: &mut u32, table: &mut [u32]) -> u32
    ensures { FreshOutcome (gather used.old active.old table.old) result
        (gather used.new active.new table.new) }
{
    argcol::argcol_fresh(used, active, table)
}

#[unsafe(no_mangle)]
pub extern "C" fn argcol_step(
    used: &mut u32,
    active: &mut u32,
    table: &mut [u32],
    code: &[u8],
    stack: &mut [u32],
    memory: &mut [u32],
    numbers: &[u32],
) -> u32
    ensures { StepOutcome
        (lend (gather used.old active.old table.old)
        stack.old memory.old)
        code.now numbers.now result
        (lend (gather used.new active.new table.new)
        stack.new memory.new) }
{
    argcol::argcol_step(used, active, table, code, stack, memory, numbers)
}

#[unsafe(no_mangle)]
pub extern "C" fn argcol_closing(
    used: &mut u32,
    active: &mut u32,
    table: &mut [u32],
    code: &[u8],
    start: u32,
    flag: u32,
    word: &[u32; 8],
    types: &mut [u16],
    kind: &mut u32,
    entries: &mut u32,
    left: &mut u32,
    length: &mut u32,
) -> u32
    ensures { ClosingOutcome (gather used.old active.old table.old)
        types.old (hand_numbers code.now start flag word.now)
        (values kind.old entries.old left.old length.old) result
        (gather used.new active.new table.new) types.new
        (values kind.new entries.new left.new length.new) }
{
    argcol::argcol_closing(
        used, active, table, code, start, flag, word, types, kind, entries, left, length,
    )
}

#[unsafe(no_mangle)]
pub extern "C" fn argcol_text(codes: &[u16], out: &mut [u8], length: &mut usize) -> u32
    ensures { TextOutcome codes.now out.old length.old result
        out.new length.new }
{
    argcol::argcol_text(codes, out, length)
}
