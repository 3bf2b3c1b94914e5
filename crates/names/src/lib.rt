// Names: which numbers are codes of types with no type inside.
#![tactic(auto)]

ghost use Rattle.std.specs.Prelude.{◌≡◌};
ghost use Rattle.names.specs.Elementary.{is_bits, is_bytes, is_name};

use limits::codes::{BOOL, FIXED_BYTES, INT, STRING, UINT};

// 8 to 256 bits in eights.
fn is_bits(n: u32) -> bool
    ensures { result ≡ is_bits n }
{
    (8..=256).contains(&n) && n % 8 == 0
}

// Fixed bytes 1 to 32.
fn is_bytes(n: u32) -> bool
    ensures { result ≡ is_bytes n }
{
    (1..=32).contains(&n)
}

// Is the number a name's code, with a width that question 2 allows?
#[tactic(auto, unfolding(crate::specs::Elementary::is_name))]
pub fn is_name(code: u32) -> bool
    ensures { result ≡ is_name code }
{
    match code {
        BOOL..=STRING => true,
        UINT..INT => is_bits(code - UINT),
        INT..FIXED_BYTES => is_bits(code - INT),
        FIXED_BYTES.. => is_bytes(code - FIXED_BYTES),
        _ => false,
    }
}
