// A trace as a reader, of an input in which its zeros are counted. At the end of the input all bytes are zero.
use std::io;
use std::io::Read;

// `left` bytes of the trace are to come: `zeros` zeros, then `given` bytes as they stand, then further runs. A run is
// how many zeros, how many bytes (a byte each), and these bytes.
#[derive(Drop)]
pub struct Runs<'a, R: Read> {
    input: &'a mut R,
    left: u32,
    zeros: u8,
    given: u8,
}

fn read_byte(input: &mut impl Read) -> u8 {
    let mut byte = [0u8; 1];
    match input.read_exact(&mut byte) {
        Ok(()) => byte[0],
        Err(_) => 0,
    }
}

impl<'a, R: Read> Runs<'a, R> {
    pub fn new(input: &'a mut R, left: u32) -> Runs<'a, R> {
        Runs {
            input,
            left,
            zeros: 0,
            given: 0,
        }
    }

    // The next byte of the trace, which begins the next run where none is left of the one before.
    fn next_byte(&mut self) -> Option<u8> {
        self.left = self.left.checked_sub(1)?;
        if self.zeros == 0 && self.given == 0 {
            self.zeros = read_byte(self.input);
            self.given = read_byte(self.input);
        }
        if 0 < self.zeros {
            self.zeros -= 1;
            return Some(0);
        }
        self.given = self.given.saturating_sub(1);
        Some(read_byte(self.input))
    }

    // Reads past what is left of the trace.
    pub fn skip(&mut self) {
        for _ in 0..self.left {
            self.next_byte();
        }
    }
}

impl<R: Read> Read for Runs<'_, R> {
    fn read(&mut self, out: &mut [u8]) -> io::Result<usize> {
        for (i, place) in out.iter_mut().enumerate() {
            let Some(byte) = self.next_byte() else {
                return Ok(i);
            };
            *place = byte;
        }
        Ok(out.len())
    }
}
