// The fields of a vector.
ghost use Rattle.std.specs.Prelude.{◌+◌, ◌≤◌, length};

use crate::leaf::{Leaf, NoSuchKind};
use vectors::{number_at, numbers};
use word::U256;
use word::numbers::from_numbers;

// Where the code begins.
const CODE: usize = 112;

// The most bytes of the code.
const CODE_MAX: usize = 80;

pub fn leaf(v: &[u8; 192]) -> Result<Leaf, NoSuchKind> {
    Leaf::try_from(v[40])
}

pub fn code(v: &[u8; 192]) -> &[u8] {
    &v[CODE..CODE + usize::from(v[41]).min(CODE_MAX)]
}

pub fn flag(v: &[u8; 192]) -> bool {
    v[42] == 1
}

pub fn number(v: &[u8; 192]) -> u32 {
    number_at(v, 44)
}

fn word_at(v: &[u8; 192], at: usize) -> U256
    requires { at + 32 ≤ length v.now }
{
    from_numbers(&numbers::<8>(&v[at..]), 0)
}

pub fn first_word(v: &[u8; 192]) -> U256 {
    word_at(v, 48)
}

pub fn second_word(v: &[u8; 192]) -> U256 {
    word_at(v, 80)
}
