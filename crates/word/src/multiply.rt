// The multiplier of a length, read as MUL and SHL hand it over.
ghost use Rattle.std.specs.Prelude.{◌≡◌};
ghost use Rattle.word.specs.Value.{value_of};
ghost use Rattle.word.specs.Multiplier.{multiplier_of};

use crate::sum::keep;
use crate::{Multiplier, U256};
use limits::{ARRAY_COUNT_MAX, WORD_BYTES};

const ARRAY_MARK_MAX: u32 = WORD_BYTES * ARRAY_COUNT_MAX;

#[tactic(auto, unfolding(crate::specs::Multiplier::multiplier_of, crate::specs::Multiplier::is_array_mark, crate::specs::Kept::kept_of))]
pub fn read_multiplier(m: U256) -> Multiplier
    ensures { result ≡ multiplier_of (value_of m) }
{
    match keep(m) {
        Some(1) => Multiplier::One,
        Some(2) => Multiplier::Two,
        Some(n) if n % WORD_BYTES == 0 && WORD_BYTES <= n && n <= ARRAY_MARK_MAX => {
            Multiplier::Array(n / WORD_BYTES)
        }
        _ => Multiplier::Other,
    }
}
