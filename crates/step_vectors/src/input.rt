// What is read from the input. At its end all numbers are zero.
ghost use Rattle.std.specs.Prelude.{◌≤◌, length};

use head::Head;
use std::io::Read;
use vectors::read_number;

// The head of the step: the one handed in, unless it is replaced.
pub fn read_head(input: &mut impl Read, head: Head) -> Head {
    if read_number(input) == 0 {
        return head;
    }
    let used = read_number(input);
    let active = read_number(input);
    Head { used, active }
}

pub fn read_pairs(input: &mut impl Read, out: &mut [u32]) {
    for _ in 0..read_number(input) {
        let at = read_number(input);
        let value = read_number(input);
        if let Some(number) = out.get_mut(at as usize) {
            *number = value;
        }
    }
}

// A list into zeros that are long enough.
pub fn read_list<'a>(input: &mut impl Read, room: &'a mut [u32]) -> &'a mut [u32]
    ensures { length result.now ≤ length room.old }
{
    let n = room.len().min(read_number(input) as usize);
    read_pairs(input, room);
    &mut room[..n]
}

// The code into zeros that are long enough.
pub fn read_code<'a>(input: &mut impl Read, room: &'a mut [u8]) -> &'a [u8]
    ensures { length result.now ≤ length room.old }
{
    let n = room.len().min(read_number(input) as usize);
    let from = n.min(read_number(input) as usize);
    let given = (n - from).min(read_number(input) as usize);
    // what an input that ends lacks stays zero
    let _ = input.read_exact(&mut room[from..from + given]);
    &room[..n]
}
