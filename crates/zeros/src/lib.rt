// Zeros: are numbers of a slice all zero?
#![tactic(auto)]

ghost use Rattle.std.specs.Prelude.{◌≡◌, ◌+◌, ◌≤◌, length};
ghost use Rattle.zeros.specs.Zeros.{zeros};

// Are n numbers of s from `at` on all zero? No branch in the fold, so that the compiler takes several numbers at a
// time.
#[tactic(auto, using(crate::proofs::Joined::range_zeros))]
pub fn are_zero(s: &[u32], at: usize, n: usize) -> bool
    requires { at + n ≤ length s.now }
    ensures { result ≡ zeros s.now at n }
{
    s[at..at + n].iter().fold(0, |any, x| any | x) == 0
}
