// Words from and to eight u32 numbers of a slice, highest first.
ghost use Rattle.std.specs.Prelude.{◌≡◌, ◌+◌, ◌*◌, ◌^◌, ◌≤◌, length};
ghost use Rattle.std.proofs.lemmas.List.Edits.{sets};
ghost use Rattle.word.specs.Value.{value_of};
ghost use Rattle.word.specs.Numbers.{word_at, limbs_at, limb_numbers, numbers_of};

use crate::U256;

// Two numbers as one limb.
fn joined(high: u32, low: u32) -> u64
    ensures { result ≡ high * 2 ^ 32 + low }
{
    u64::from(high) << 32 | u64::from(low)
}

// The word at an index of s.
#[tactic(auto, using(crate::proofs::EightNumbers::read_limbs, crate::proofs::EightNumbers::read_value))]
pub fn from_numbers(s: &[u32], at: usize) -> U256
    requires { at + 8 ≤ length s.now }
    ensures { (result ≡ limbs_at s.now at) × (value_of result ≡ word_at s.now at) }
{
    U256 {
        l3: joined(s[at], s[at + 1]),
        l2: joined(s[at + 2], s[at + 3]),
        l1: joined(s[at + 4], s[at + 5]),
        l0: joined(s[at + 6], s[at + 7]),
    }
}

// Stores the halves of a limb, the higher first: by `as`, for no `From` narrows; each fits, as is proved.
fn put_limb(s: &mut [u32], at: usize, limb: u64)
    requires { at + 2 ≤ length s.old }
    ensures { s.new ≡ sets s.old at (limb_numbers limb) }
{
    s[at] = (limb / 0x1_0000_0000) as u32;
    s[at + 1] = (limb % 0x1_0000_0000) as u32;
}

// Stores the word at an index of s; all else keeps its value.
pub fn put_numbers(s: &mut [u32], at: usize, x: U256)
    requires { at + 8 ≤ length s.old }
    ensures { s.new ≡ sets s.old at (numbers_of x) }
{
    put_limb(s, at, x.l3);
    put_limb(s, at + 2, x.l2);
    put_limb(s, at + 4, x.l1);
    put_limb(s, at + 6, x.l0);
}
