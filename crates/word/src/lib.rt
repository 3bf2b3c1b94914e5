// 256-bit words as four u64 limbs, by value. Nothing here knows of labels, facts or opcodes.
#![tactic(auto)]

pub mod bits;
pub mod compare;
pub mod multiply;
pub mod numbers;
pub mod power;
pub mod range;
pub mod sum;

// Limb i has the weight 2^(64 i). The highest stands first, so that the derived order is that of the numbers.
#[derive(Clone, Copy, Debug, PartialEq, Eq, PartialOrd, Ord)]
pub struct U256 {
    pub l3: u64,
    pub l2: u64,
    pub l1: u64,
    pub l0: u64,
}

impl U256 {
    pub const ZERO: U256 = U256 {
        l3: 0,
        l2: 0,
        l1: 0,
        l0: 0,
    };

    pub const ONE: U256 = U256 {
        l3: 0,
        l2: 0,
        l1: 0,
        l0: 1,
    };

    // 2^256 - 1.
    pub const MAX: U256 = U256 {
        l3: u64::MAX,
        l2: u64::MAX,
        l1: u64::MAX,
        l0: u64::MAX,
    };
}

impl From<u64> for U256 {
    ghost use Rattle.std.specs.Prelude.{◌≡◌};
    ghost use Rattle.word.specs.Value.{value_of};

    ghost from_gives = { λ n word. value_of word ≡ n };

    fn from(n: u64) -> U256 {
        U256 {
            l0: n,
            ..U256::ZERO
        }
    }
}

impl From<u32> for U256 {
    ghost use Rattle.std.specs.Prelude.{◌≡◌};
    ghost use Rattle.word.specs.Value.{value_of};

    ghost from_gives = { λ n word. value_of word ≡ n };

    fn from(n: u32) -> U256 {
        U256::from(u64::from(n))
    }
}

// What a multiplier of a length says: an array mark counts the words of an element.
#[derive(Clone, Copy, Debug, PartialEq, Eq)]
pub enum Multiplier {
    One,
    Two,
    Array(u32),
    Other,
}
