// Standard input and output of the programs, by C's `read` and `write` alone: std's own streams also ask C what went
// wrong, by two more calls that would have to be believed. What can't be read is the end of the input, and what can't
// be written is left.
#![tactic(auto)]

ghost use Rattle.std.specs.Prelude.{◌≤◌, ◌<◌, IsOk, OnOk, OnErr};

use std::fmt::Display;
use std::io::{Error, ErrorKind, Read, Result, Write};

// The numbers of standard input and output, which `io` reads and writes by.
const STDIN_FILENO: i32 = 0;

const STDOUT_FILENO: i32 = 1;

#[derive(Clone, Copy)]
pub struct Pipe;

// Was all that was asked for read?
fn all_of(wanted: usize, read: usize) -> Result<()>
    ensures ok { OnOk result (wanted ≤ read) }
    ensures err { OnErr result (read < wanted) }
{
    if read < wanted {
        return Err(Error::from(ErrorKind::UnexpectedEof));
    }
    Ok(())
}

impl Read for Pipe {
    fn read(&mut self, buf: &mut [u8]) -> Result<usize> {
        Ok(io::read_full(STDIN_FILENO, buf))
    }

    // A short read ends the input. The default would read once more behind it.
    fn read_exact(&mut self, buf: &mut [u8]) -> Result<()> {
        let read = io::read_full(STDIN_FILENO, buf);
        all_of(buf.len(), read)
    }
}

impl Write for Pipe {
    fn write(&mut self, bytes: &[u8]) -> Result<usize> {
        io::write_all(STDOUT_FILENO, bytes);
        Ok(bytes.len())
    }

    fn flush(&mut self) -> Result<()> {
        Ok(())
    }
}

impl Print for Pipe {
    fn print<D: Display + Drop>(&self, value: D) -> Result<()>
        ensures { IsOk result }
    {
        let mut out = *self;
        // an error is the value's own, since no write has one; what it wrote before stands
        let _ = out.write_fmt(value);
        Ok(())
    }

    fn println<D: Display + Drop>(&self, value: D) -> Result<()>
        ensures { IsOk result }
    {
        let mut out = *self;
        let _ = out.writeln(value);
        Ok(())
    }

    fn write_all(&self, bytes: &[u8]) -> Result<()>
        ensures { IsOk result }
    {
        io::write_all(STDOUT_FILENO, bytes);
        Ok(())
    }
}
