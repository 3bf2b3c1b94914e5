// One line's end for an answer.
use limits::Refusal;
use std::io;

// The longest text that is written itself.
const SHOWN_MAX: usize = 120;

// A sum over bytes and places, to tell long texts apart.
fn sum(out: &[u8]) -> u64 {
    let mut s: u64 = 0;
    for b in out {
        s = (s * 31 + u64::from(*b)) % 1_000_000_007;
    }
    s
}

// What the byte at an index is filled with: no ASCII.
fn filling(i: usize) -> u8 {
    // no `From` narrows it, and `try_from` would need an answer for what is never so
    128 + (i % 127) as u8
}

pub fn fill(out: &mut [u8]) {
    for (i, b) in out.iter_mut().enumerate() {
        *b = filling(i);
    }
}

// Are all bytes from an index on as they were filled?
fn put_kept(rt: &impl Print, out: &[u8], from: usize) -> io::Result<()> {
    let kept = out
        .iter()
        .enumerate()
        .skip(from)
        .all(|(i, b)| *b == filling(i));
    print!(rt; "{}", if kept { " kept" } else { " CHANGED" })
}

fn put_text(rt: &impl Print, out: &[u8], n: usize) -> io::Result<()> {
    let Some(text) = out.get(..n) else {
        return Ok(());
    };
    print!(rt; " {n} ")?;
    if n <= SHOWN_MAX {
        rt.write_all(text)?;
    } else {
        print!(rt; "{}", sum(text))?;
    }
    put_kept(rt, out, n)
}

pub fn report(rt: &impl Print, answer: Result<usize, Refusal>, out: &[u8]) -> io::Result<()> {
    match answer {
        Ok(n) => put_text(rt, out, n),
        Err(refusal) => {
            print!(rt; " refused {}", u32::from(refusal))?;
            put_kept(rt, out, 0)
        }
    }
}
