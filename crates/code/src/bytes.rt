// Single bytes of the code, pushed sizes and pushed numbers.
ghost use Rattle.std.specs.Prelude.{◌≡◌, ◌+◌, ◌^◌, ◌≤◌, length, IfSome};
ghost use Rattle.code.specs.Bytes.{is_at, past_byte, push_size_at, number_at};

use opcode::push_size;

// Does the byte b stand at the place?
#[tactic(auto, using(crate::proofs::Places::byte_law, crate::proofs::Places::item_copied))]
pub fn byte_is(code: &[u8], at: usize, b: u8) -> bool
    ensures { result ≡ is_at code.now at b }
{
    code.get(at).copied() == Some(b)
}

// The place after one byte b, if it stands at pc.
#[tactic(auto, unfolding(crate::specs::Bytes::past_byte))]
pub fn past_byte(code: &[u8], pc: u32, b: u8) -> usize
    ensures { (result ≡ past_byte code.now pc b) × (result ≤ 2 ^ 32) }
{
    let at = pc as usize;
    if byte_is(code, at, b) { at + 1 } else { at }
}

// How many bytes the PUSH1 to PUSH4 at the place pushes, if one of them stands there.
#[tactic(auto, using(crate::proofs::Places::push_some, crate::proofs::Places::push_none))]
pub fn push_size_at(code: &[u8], at: usize) -> Option<usize>
    ensures { (result ≡ push_size_at code.now at) × IfSome result (λ n. n ≤ 4) }
{
    push_size(*code.get(at)?)
}

// The number that n bytes from the place on stand for, highest first.
pub fn number_at(code: &[u8], at: usize, n: usize) -> u32
    requires { (at + n ≤ length code.now) × (n ≤ 4) }
    ensures { result ≡ number_at code.now at n }
{
    let mut number = 0;
    for byte in &code[at..at + n] {
        number = number * 256 + u32::from(*byte);
    }
    number
}
