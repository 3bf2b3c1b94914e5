// Question 2.
ghost use Rattle.std.specs.Prelude.{length, ◌≤◌};
ghost use Rattle.facts.specs.Access.{ZeroFrom};
ghost use Rattle.facts.specs.Count.{Counted};
ghost use Rattle.facts.specs.Sound.{Sound};
ghost use Rattle.facts.specs.Checks.{Tells};

use crate::fact::is_root;
use crate::links::are_chained_records;
use limits::RECORD_WIDTH;
use zeros::are_zero;

// How many numbers a line of the processor's cache has.
const LINE: usize = 16;

// How many numbers are tested at a time: whole lines, and so many that the compiler writes the test out with no loop in
// it.
const BLOCK: usize = 16 * LINE;

// Is every number of a part zero?
#[tactic(auto, using(crate::proofs::Zeros::zeros_tell))]
fn is_zero(part: &[u32]) -> bool
    ensures { Tells result (ZeroFrom part.now 0) }
{
    are_zero(part, 0, part.len())
}

// Is every number from that place on zero? Up to the next line first, so that each load lies within a line, then block
// by block, then what is left.
fn is_zero_from(table: &[u32], start: usize) -> bool
    requires { start ≤ length table.now }
    ensures { Tells result (ZeroFrom table.now start) }
{
    let rest = &table[start..];
    let (head, rest) = rest.split_at((LINE - start % LINE).min(rest.len()));
    let (blocks, tail) = rest.as_chunks::<BLOCK>();
    is_zero(head) && blocks.iter().all(|block| is_zero(block)) && is_zero(tail)
}

// Is a table of n records, as question 1 counts them, sound with that many used? It may hold any numbers; the time is
// linear in its length.
pub fn is_sound(table: &[u32], n: u32, used: u32) -> bool
    requires { Counted (length table.now) n }
    ensures { Tells result (Sound table.now used n) }
{
    if used < 1 {
        return false;
    }
    if n < used {
        return false;
    }
    if !is_root(table) {
        return false;
    }
    if !are_chained_records(table, used) {
        return false;
    }
    if !is_zero_from(table, used as usize * RECORD_WIDTH) {
        return false;
    }
    true
}
