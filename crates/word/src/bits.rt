// AND, NOT and the count of ones, limb by limb.
ghost use Rattle.std.specs.Prelude.{◌≡◌, ◌-◌, ◌^◌, bit_and, count_ones};
ghost use Rattle.word.specs.Value.{value_of};

use crate::U256;

#[tactic(auto, using(crate::proofs::Limbs::and_is))]
pub fn and(x: U256, y: U256) -> U256
    ensures { value_of result ≡ bit_and (value_of x) (value_of y) }
{
    U256 {
        l3: x.l3 & y.l3,
        l2: x.l2 & y.l2,
        l1: x.l1 & y.l1,
        l0: x.l0 & y.l0,
    }
}

pub fn not(x: U256) -> U256
    ensures { value_of result ≡ 2 ^ 256 - 1 - value_of x }
{
    U256 {
        l3: !x.l3,
        l2: !x.l2,
        l1: !x.l1,
        l0: !x.l0,
    }
}

// How many bits of x are set.
#[tactic(auto, using(crate::proofs::Limbs::ones_joined))]
pub fn count_ones(x: U256) -> u32
    ensures { result ≡ count_ones (value_of x) }
{
    x.l3.count_ones() + x.l2.count_ones() + x.l1.count_ones() + x.l0.count_ones()
}
