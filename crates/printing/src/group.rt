// A group is read whole, and then its step is put. Its front says how many bytes follow, so that no byte is read that
// is not the group's.
ghost use Rattle.std.specs.Prelude.{◌≡◌, ◌+◌, ◌≤◌, length, IfOk};
ghost use Rattle.trace.specs.Group.{group_room, front_bytes};

use crate::Stop;
use head::Head;
use std::io::Read;
use trace::{FRONT_BYTES, group_rest};

// How many bytes follow the front.
fn rest_of(group: &[u8]) -> Result<usize, Stop>
    requires { length group.now ≡ group_room }
    ensures { IfOk result (λ n. front_bytes + n ≤ group_room) }
{
    group_rest(group).ok_or(Stop::BadInput)
}

// The step of the group, with its number from 1.
fn put_step(
    head: Head,
    table: &mut [u32],
    code: &[u8],
    bytes: &[u8],
    step: u32,
) -> Result<Head, Stop> {
    // there always is one for bytes that are as many as their front says
    let stepped = groups::take_group(head, table, code, bytes).ok_or(Stop::BadInput)?;
    match stepped.answer {
        Ok(()) => Ok(stepped.head),
        Err(refusal) => Err(Stop::Refused { refusal, step }),
    }
}

// Reads a group to a slice with room for the longest, and takes its step.
pub fn take_group(
    input: &mut impl Read,
    head: Head,
    table: &mut [u32],
    code: &[u8],
    group: &mut [u8],
    step: u32,
) -> Result<Head, Stop>
    requires { length group.old ≡ group_room }
{
    let front = &mut group[..FRONT_BYTES];
    input.read_exact(front)?;
    let end = FRONT_BYTES + rest_of(group)?;
    input.read_exact(&mut group[FRONT_BYTES..end])?;
    put_step(head, table, code, &group[..end], step)
}
