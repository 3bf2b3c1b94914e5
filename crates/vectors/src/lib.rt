// What the programs that run vectors share: the loop over the vectors of an input, and a vector's name and numbers.
#![tactic(auto)]

ghost use Rattle.std.specs.Prelude.{◌≡◌, ℕ, ◌+◌, ◌/◌, ◌<◌, ◌≤◌, [], length, slice_index, slice_index_or, slice_range};
ghost use Rattle.std.specs.Int.{from_be_bytes, w32};
ghost use Rattle.std.specs.Simd.{first_chunks};

use std::io;
use std::io::Read;

// More than any list of vectors has.
const VECTORS_MAX: u32 = 1_000_000;

// A vector is read whole or not at all.
pub trait Vector {
    fn read<R: Read>(input: &mut R) -> io::Result<Self>;
}

impl<const N: usize> Vector for [u8; N] {
    fn read<R: Read>(input: &mut R) -> io::Result<[u8; N]> {
        let mut bytes = [0u8; N];
        input.read_exact(&mut bytes)?;
        Ok(bytes)
    }
}

// Calls `run` at each vector, up to one that the input has no longer whole. What stands behind a vector may be its own,
// so `run` is lent the input too.
pub fn for_each<V: Vector, R: Read, F: FnMut(&mut R, V) -> io::Result<()>>(
    input: &mut R,
    mut run: F,
) -> io::Result<()>
    requires { F.IsAlwaysCallable run }
{
    for _ in 0..VECTORS_MAX {
        let Ok(vector) = V::read(input) else {
            break;
        };
        run(input, vector)?;
    }
    Ok(())
}

// The four bytes from an index on, highest byte first.
pub fn number_at(bytes: &[u8], at: usize) -> u32
    requires { at + 4 ≤ length bytes.now }
    ensures { result ≡ from_be_bytes w32 (slice_range bytes.now at (at + 4)) }
{
    u32::from_be_bytes([bytes[at], bytes[at + 1], bytes[at + 2], bytes[at + 3]])
}

// The first K numbers of four bytes, highest byte first; zeros where the bytes end before.
pub fn numbers<const K: usize>(bytes: &[u8]) -> [u32; K]
    ensures { (k : ℕ) → k < K → k < length bytes.now / 4 → slice_index result k
        ≡ from_be_bytes w32 (slice_index_or (first_chunks 4 (length bytes.now / 4) bytes.now) k []) }
{
    let mut numbers = [0u32; K];
    let (quads, _) = bytes.as_chunks::<4>();
    // counted: over `numbers.iter_mut().zip(quads)` the proof of what it returns did not close
    for k in 0..quads.len().min(K) {
        numbers[k] = u32::from_be_bytes(quads[k]);
    }
    numbers
}

// The next four bytes, lowest byte first; zero where the input ends before.
pub fn read_number(input: &mut impl Read) -> u32 {
    match <[u8; 4]>::read(input) {
        Ok(bytes) => u32::from_le_bytes(bytes),
        Err(_) => 0,
    }
}

// Writes a name that stands at the start of its field, or all of the field where the length is past it; what can't be
// written is left.
pub fn put_name(rt: &impl Print, field: &[u8], length: usize) {
    let _ = rt.write_all(field.get(..length).unwrap_or(field));
}
