// Equality, and comparison with zero, with numbers of one limb and with the largest word.
ghost use Rattle.std.specs.Prelude.{◌≡◌, ◌-◌, ◌^◌, ◌==◌, nat_lt};
ghost use Rattle.word.specs.Value.{value_of};

use crate::U256;

pub fn equal(x: U256, y: U256) -> bool
    ensures { result ≡ (value_of x == value_of y) }
{
    x == y
}

pub fn equals_number(x: U256, n: u64) -> bool
    ensures { result ≡ (value_of x == n) }
{
    x == U256::from(n)
}

pub fn is_zero(x: U256) -> bool
    ensures { result ≡ (value_of x == 0) }
{
    x == U256::ZERO
}

pub fn below_number(x: U256, n: u64) -> bool
    ensures { result ≡ nat_lt (value_of x) n }
{
    x < U256::from(n)
}

// Is x the largest word, 2^256 - 1?
pub fn is_max(x: U256) -> bool
    ensures { result ≡ (value_of x == 2 ^ 256 - 1) }
{
    x == U256::MAX
}
