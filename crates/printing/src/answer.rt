// What is written.
use crate::Stop;
use head::Head;
use limits::{Refusal, TYPES_ROOM};
use report::close_into;
use spell::Writer;
use std::io;
use trace::{LINE_ROOM, LIST_ROOM, put_refused};
use word::U256;

// "`refused N at S` (number, step from 1, 0 for closing)".
fn put_refusal(rt: &impl Print, refusal: Refusal, step: u32) -> io::Result<()> {
    let mut line = [0u8; LINE_ROOM];
    let mut w = Writer::new(&mut line);
    put_refused(&mut w, u32::from(refusal), step);
    let n = w.to;
    rt.write_all(&line[..n])
}

// The line for what ended a trace before its closing.
pub fn put_stop(rt: &impl Print, stop: Stop) -> io::Result<()> {
    match stop {
        Stop::BadInput => rt.write_all(b"input refused\n"),
        Stop::Refused { refusal, step } => put_refusal(rt, refusal, step),
    }
}

// The closing, and what it answers, on room of its own.
pub fn close_trace(
    rt: &impl Print,
    head: Head,
    table: &mut [u32],
    code: &[u8],
    start: u32,
    packed: Option<U256>,
) -> io::Result<()> {
    let mut types = [0u16; TYPES_ROOM];
    let mut lines = [0u8; LIST_ROOM];
    let stored = close_into(head, table, code, start, packed, &mut types, &mut lines);
    rt.write_all(&lines[..stored.length])
}
