// Are the bytes a whole group?
ghost use Rattle.facts.specs.Checks.{Tells};
ghost use Rattle.groups.specs.Group.{IsGroup};

use trace::{FRONT_BYTES, group_rest};

// The front is there, its counts are within the sizes, and the bytes behind it are as many as these ask for.
pub fn is_group(bytes: &[u8]) -> bool
    ensures { Tells result (IsGroup bytes.now) }
{
    if bytes.len() < FRONT_BYTES {
        return false;
    }
    match group_rest(bytes) {
        Some(rest) => bytes.len() == FRONT_BYTES + rest,
        None => false,
    }
}
