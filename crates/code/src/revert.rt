// The six ways to revert with no data, as the code part begins.
ghost use Rattle.std.specs.Prelude.{◌≡◌, nat_eq};
ghost use Rattle.std.specs.List.{list_any, starts_with};
ghost use Rattle.code.specs.Revert.{is_empty_revert, begins_empty_revert};

use opcode::JUMPDEST;

const EMPTY_REVERTS: [&[u8]; 6] = [
    b"\x5f\x5f\xfd",
    b"\x5f\x80\xfd",
    b"\x5f\x60\x00\xfd",
    b"\x60\x00\x5f\xfd",
    b"\x60\x00\x80\xfd",
    b"\x60\x00\x60\x00\xfd",
];

// Does the part begin with one of the byte strings?
fn begins_any(part: &[u8], strings: &[&[u8]]) -> bool
    ensures { result ≡ list_any (λ s. starts_with nat_eq part.now s.now) strings.now }
{
    strings.iter().any(|s| part.starts_with(s))
}

fn begins_empty_revert(part: &[u8]) -> bool
    ensures { result ≡ begins_empty_revert part.now }
{
    begins_any(part, &EMPTY_REVERTS)
}

// The same, after one JUMPDEST if it stands there.
pub fn is_empty_revert(part: &[u8]) -> bool
    ensures { result ≡ is_empty_revert part.now }
{
    match part {
        [JUMPDEST, rest @ ..] => begins_empty_revert(rest),
        _ => begins_empty_revert(part),
    }
}
