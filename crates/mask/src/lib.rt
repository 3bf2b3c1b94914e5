// The type that a mask names, by mask AND mask plus one over four limbs.
#![tactic(auto)]

ghost use Rattle.std.specs.Prelude.{◌≡◌, ◌≤◌, IfSome};
ghost use Rattle.word.specs.Value.{value_of};
ghost use Rattle.mask.specs.Mask.{low_bytes, leading_bytes, and_mask_to_type};
ghost use Rattle.mask.specs.Run.{Run};

use limits::ADDRESS_BITS;
use limits::codes::{ADDRESS, FIXED_BYTES, NO_NAME, UINT};
use word::U256;
use word::bits::{and, count_ones, not};
use word::compare::is_zero;
use word::sum::add;

// How many low ones m is, if it is nothing else. m and m + 1 have no bit in common just where m + 1 is a power of two.
fn low_run(m: U256) -> Option<u32>
    ensures { Run (value_of m) result }
{
    if is_zero(and(m, add(m, U256::ONE))) {
        Some(count_ones(m))
    } else {
        None
    }
}

// How many whole bytes of low ones m is, if it is such a mask.
#[tactic(auto, using(crate::proofs::ByteCounts::low_counts))]
fn low_bytes(m: U256) -> Option<u32>
    ensures { (result ≡ low_bytes (value_of m)) × IfSome result (λ n. n ≤ 32) }
{
    match low_run(m) {
        Some(run) if run % 8 == 0 && run > 0 => Some(run / 8),
        _ => None,
    }
}

// How many leading ff bytes m has, the rest zero, if it is such a mask. They are the complement of low ones.
fn leading_bytes(m: U256) -> Option<u32>
    ensures { (result ≡ leading_bytes (value_of m)) × IfSome result (λ n. n ≤ 32) }
{
    match low_run(not(m)) {
        Some(run) if run % 8 == 0 && run < 256 => Some(32 - run / 8),
        _ => None,
    }
}

// The name that a mask gives. A name is a number of the format, in which a record's name is stored; there 0, NO_NAME,
// stands for none.
#[tactic(auto, using(crate::proofs::Names::names))]
pub fn and_mask_to_type(m: U256) -> u32
    ensures { result ≡ and_mask_to_type (value_of m) }
{
    if let Some(low) = low_bytes(m) {
        if 8 * low == ADDRESS_BITS {
            ADDRESS
        } else {
            UINT + 8 * low
        }
    } else if let Some(leading) = leading_bytes(m) {
        FIXED_BYTES + leading
    } else {
        NO_NAME
    }
}
