// What each leaf is called with, and how its answer is written.
use crate::leaf::Leaf;
use crate::vector::{code, first_word, flag, leaf, number, second_word};
use std::fmt::Display;
use std::io;
use std::io::Write;
use word::{Multiplier, U256};

fn put_bool(rt: &impl Print, b: bool) -> io::Result<()> {
    print!(rt; "{}", if b { " yes" } else { " no" })
}

fn put_number(rt: &impl Print, n: u32) -> io::Result<()> {
    print!(rt; " {n}")
}

fn put_word(rt: &impl Print, x: U256) -> io::Result<()> {
    let mut numbers = [0u32; 8];
    word::numbers::put_numbers(&mut numbers, 0, x);
    // written at once: the zeros before a number would be a write of their own
    let mut digits = [0u8; 64];
    let mut rest: &mut [u8] = &mut digits;
    for n in numbers {
        write!(rest, "{n:08x}")?;
    }
    print!(rt; " ")?;
    rt.write_all(&digits)
}

// What may not be there.
fn put_option<T: Display + Drop>(
    rt: &impl Print,
    value: Option<T>,
    none: &'static str,
) -> io::Result<()> {
    match value {
        Some(x) => print!(rt; " {x}"),
        None => print!(rt; "{none}"),
    }
}

fn put_multiplier(rt: &impl Print, m: Multiplier) -> io::Result<()> {
    match m {
        Multiplier::One => print!(rt; " one"),
        Multiplier::Two => print!(rt; " two"),
        Multiplier::Array(n) => print!(rt; " {n}"),
        Multiplier::Other => print!(rt; " other"),
    }
}

fn put_opcode(rt: &impl Print, op: u8) -> io::Result<()> {
    put_bool(rt, opcode::clears_operands(op))?;
    put_bool(rt, opcode::ends_decoder(op))?;
    put_bool(rt, opcode::needs_slot(op))?;
    print!(rt; " {}", opcode::push_size(op).unwrap_or(0))
}

pub fn answer(rt: &impl Print, v: &[u8; 192]) -> io::Result<()> {
    let Ok(leaf) = leaf(v) else {
        return print!(rt; " no such kind");
    };
    let n = number(v);
    let x = first_word(v);
    match leaf {
        Leaf::AndMaskToType => put_number(rt, mask::and_mask_to_type(x)),
        Leaf::Keep => put_option(rt, word::sum::keep(x), " not kept"),
        Leaf::AddKept => put_option(rt, word::sum::add_kept(x, n), " not kept"),
        Leaf::Add => put_word(rt, word::sum::add(x, second_word(v))),
        Leaf::PowerOfTwo => put_word(rt, word::power::power_of_two(x)),
        Leaf::ReadMultiplier => put_multiplier(rt, word::multiply::read_multiplier(x)),
        Leaf::IsRangeBound => put_bool(rt, word::range::is_range_bound(x, flag(v))),
        Leaf::Equal => put_bool(rt, word::compare::equal(x, second_word(v))),
        Leaf::IsZero => put_bool(rt, word::compare::is_zero(x)),
        Leaf::IsMax => put_bool(rt, word::compare::is_max(x)),
        Leaf::EqualsNumber => put_bool(rt, word::compare::equals_number(x, u64::from(n))),
        Leaf::BelowNumber => put_bool(rt, word::compare::below_number(x, u64::from(n))),
        Leaf::Opcode => put_opcode(rt, n.to_le_bytes()[0]),
        Leaf::GuardFailurePc => put_option(
            rt,
            code::guard_failure_pc(code(v), n, flag(v)),
            " none",
        ),
        Leaf::IsEmptyRevertGuard => put_bool(rt, code::is_empty_revert_guard(code(v), n, flag(v))),
        Leaf::IsDivisionCheck => put_bool(rt, code::is_division_check(code(v), n)),
        Leaf::DirectWords => put_option(rt, code::direct_min_calldata_words(code(v), n), " none"),
        Leaf::DenseWords => put_option(rt, code::dense_min_calldata_words(code(v), n, x), " none"),
    }
}
