// The fields of a vector.
ghost use Rattle.std.specs.Prelude.{◌<◌};

use vectors::{number_at, numbers};

// The most numbers of a table.
const NUMBERS_MAX: usize = 132;

// Where the numbers begin.
const NUMBERS: usize = 48;

// How many numbers the table has.
pub fn count(v: &[u8; 576]) -> usize
    ensures { result < 256 }
{
    usize::from(v[41])
}

pub fn used(v: &[u8; 576]) -> u32 {
    number_at(v, 44)
}

// The vector's numbers, of which the first ones are the table.
pub fn table(v: &[u8; 576]) -> [u32; NUMBERS_MAX] {
    numbers(&v[NUMBERS..])
}
