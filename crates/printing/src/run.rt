// A trace: header and code, the steps, the end of the input, the closing.
ghost use Rattle.std.specs.Prelude.{◌≤◌, ◌≡◌, length as size, IfOk};
ghost use Rattle.limits.specs.Input.{header_width, trace_code_max};
ghost use Rattle.trace.specs.Group.{group_room};
ghost use Rattle.printing.specs.Header.{packed_in};

use crate::Stop;
use crate::answer::{close_trace, put_stop};
use crate::group::take_group;
use head::Head;
use limits::input::{
    HEADER_FLAG, HEADER_LENGTH, HEADER_PACKED, HEADER_START, HEADER_WIDTH, NUMBER_BYTES,
    TRACE_CODE_MAX, TRACE_NUMBERS,
};
use std::io::Read;
use trace::{GROUP_ROOM, header_fits, read_numbers};
use word::U256;
use word::numbers::from_numbers;

// Bytes of the header.
const HEADER_BYTES: usize = HEADER_WIDTH * NUMBER_BYTES;

// What the header says: the code's length, the start and the packed word.
#[derive(Clone, Copy)]
struct Header {
    length: usize,
    start: u32,
    packed: Option<U256>,
}

// "packed flag, packed word (eight numbers, present at flag 0 too)".
fn packed_of(header: &[u32]) -> Option<U256>
    requires { size header.now ≡ header_width }
    ensures { result ≡ packed_in header.now }
{
    if header[HEADER_FLAG] == 0 {
        return None;
    }
    Some(from_numbers(header, HEADER_PACKED))
}

fn header_of(header: &[u32]) -> Result<Header, Stop>
    requires { size header.now ≡ header_width }
    ensures { IfOk result (λ said. (said.length ≤ trace_code_max) × (said.packed ≡ packed_in header.now)) }
{
    let length = header[HEADER_LENGTH];
    if !header_fits(length, header[HEADER_FLAG]) {
        return Err(Stop::BadInput);
    }
    Ok(Header {
        length: length as usize,
        start: header[HEADER_START],
        packed: packed_of(header),
    })
}

fn read_header(input: &mut impl Read) -> Result<Header, Stop>
    ensures { IfOk result (λ said. said.length ≤ trace_code_max) }
{
    let mut bytes = [0u8; HEADER_BYTES];
    input.read_exact(&mut bytes)?;
    let mut header = [0u32; HEADER_WIDTH];
    read_numbers(&bytes, &mut header);
    header_of(&header)
}

// As many steps as are counted.
fn take_steps(
    input: &mut impl Read,
    opened: Head,
    table: &mut [u32],
    code: &[u8],
    group: &mut [u8],
) -> Result<Head, Stop>
    requires { size group.old ≡ group_room }
{
    let mut count = [0u8; NUMBER_BYTES];
    input.read_exact(&mut count)?;
    let mut head = opened;
    for i in 0..u32::from_le_bytes(count) {
        head = take_group(input, head, table, code, group, i + 1)?;
    }
    Ok(head)
}

// All of the trace before its closing: the code to a slice that is long enough, and the steps on a fresh table.
fn take_trace(
    input: &mut impl Read,
    code: &mut [u8],
    table: &mut [u32],
) -> Result<(Header, Head), Stop>
    requires { trace_code_max ≤ size code.old }
    ensures { IfOk result (λ taken. taken.0.length ≤ trace_code_max) }
{
    let header = read_header(input)?;
    let code = &mut code[..header.length];
    input.read_exact(code)?;
    let opened = head::fresh(Head { used: 0, active: 0 }, table);
    let mut group = [0u8; GROUP_ROOM];
    let head = take_steps(input, opened.head, table, code, &mut group)?;
    // "bytes after the last step being met before the closing"
    if input.read_exact(&mut [0u8; 1]).is_ok() {
        return Err(Stop::BadInput);
    }
    Ok((header, head))
}

// Reads one trace and writes its lines; what can't be written is left.
pub fn print_trace(rt: &impl Print, input: &mut impl Read) {
    let mut code = [0u8; TRACE_CODE_MAX];
    let mut table = [0u32; TRACE_NUMBERS];
    let _ = match take_trace(input, &mut code, &mut table) {
        Ok((header, head)) => {
            let Header {
                length,
                start,
                packed,
            } = header;
            close_trace(rt, head, &mut table, &code[..length], start, packed)
        }
        Err(stop) => put_stop(rt, stop),
    };
}
