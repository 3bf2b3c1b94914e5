// "Standard input, u32 little-endian": numbers from bytes.
ghost use Rattle.std.specs.Prelude.{◌≡◌, ◌+◌, ◌*◌, ◌≤◌, length};
ghost use Rattle.limits.specs.Input.{number_bytes};
ghost use Rattle.trace.specs.Numbers.{number_at, numbers_of};

use limits::input::NUMBER_BYTES;

// The number whose lowest byte stands at an index.
#[tactic(auto, unfolding(crate::specs::Numbers::number_at))]
pub fn number_at(bytes: &[u8], at: usize) -> u32
    requires { at + number_bytes ≤ length bytes.now }
    ensures { result ≡ number_at bytes.now at }
{
    u32::from_le_bytes([bytes[at], bytes[at + 1], bytes[at + 2], bytes[at + 3]])
}

// The first bytes, four to a number, fill the slice.
pub fn read_numbers(bytes: &[u8], out: &mut [u32])
    requires { number_bytes * length out.old ≤ length bytes.now }
    ensures { out.new ≡ numbers_of (length out.old) bytes.now }
{
    for (i, number) in out.iter_mut().enumerate() {
        *number = number_at(bytes, i * NUMBER_BYTES);
    }
}
