// 2^shift as SHL of 1 gives it.
ghost use Rattle.std.specs.Prelude.{◌≡◌, ◌^◌, ◌<◌};
ghost use Rattle.word.specs.Value.{value_of};
ghost use Rattle.word.specs.Arithmetic.{power_of};

use crate::U256;
use crate::sum::keep;

fn power_below_256(shift: u32) -> U256
    requires { shift < 256 }
    ensures { value_of result ≡ 2 ^ shift }
{
    let mut x = U256::ZERO;
    if shift < 64 {
        x.l0 = 1 << shift;
    } else if shift < 128 {
        x.l1 = 1 << (shift - 64);
    } else if shift < 192 {
        x.l2 = 1 << (shift - 128);
    } else {
        x.l3 = 1 << (shift - 192);
    }
    x
}

// The whole shift counts, so a shift with a high limb gives 0 whatever its low bits are.
#[tactic(auto, unfolding(crate::specs::Arithmetic::power_of, crate::specs::Kept::kept_of))]
pub fn power_of_two(shift: U256) -> U256
    ensures { value_of result ≡ power_of (value_of shift) }
{
    match keep(shift) {
        Some(n) if n < 256 => power_below_256(n),
        _ => U256::ZERO,
    }
}
