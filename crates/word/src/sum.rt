// Sums modulo 2^256, limb by limb with a carry, and what is kept of them.
ghost use Rattle.std.specs.Prelude.{◌≡◌};
ghost use Rattle.word.specs.Value.{value_of};
ghost use Rattle.word.specs.Arithmetic.{sum_of};
ghost use Rattle.word.specs.Kept.{kept_of};

use crate::U256;

// The sum modulo 2^256.
pub fn add(x: U256, y: U256) -> U256
    ensures { value_of result ≡ sum_of (value_of x) (value_of y) }
{
    let (l0, carry0) = x.l0.carrying_add(y.l0, false);
    let (l1, carry1) = x.l1.carrying_add(y.l1, carry0);
    let (l2, carry2) = x.l2.carrying_add(y.l2, carry1);
    let (l3, _) = x.l3.carrying_add(y.l3, carry2);
    U256 { l3, l2, l1, l0 }
}

// "Kept if below 2^32": what is left of x.
#[tactic(auto, unfolding(crate::specs::Kept::kept_of))]
pub fn keep(x: U256) -> Option<u32>
    ensures { result ≡ kept_of (value_of x) }
{
    match (x.l3, x.l2, x.l1, u32::try_from(x.l0)) {
        (0, 0, 0, Ok(n)) => Some(n),
        _ => None,
    }
}

// Adding a constant to a label's added value: the sum is taken modulo 2^256 before it is kept.
pub fn add_kept(x: U256, n: u32) -> Option<u32>
    ensures { result ≡ kept_of (sum_of (value_of x) n) }
{
    keep(add(x, U256::from(n)))
}
