// The length of the text, before a byte of it is written.
ghost use Rattle.std.specs.Prelude.{◌≡◌, ◌^◌, ◌≤◌, length};
ghost use Rattle.limits.specs.Limits.{codes_max};
ghost use Rattle.text.specs.Weight.{comma_before, tallied, MeasuredBy};

use spell::name_length;
use types::CodeKind;

// The codes counted so far, from the left: how many types are still wanted, and how long the text is, each entry with a
// comma before it.
#[derive(Clone, Copy, Debug, PartialEq, Eq)]
pub struct Tally {
    pub wanted: usize,
    pub length: usize,
}

fn comma_before(wanted: usize) -> usize
    ensures { (result ≡ comma_before wanted) × (result ≤ 1) }
{
    usize::from(wanted == 0)
}

// The tally with one code more; none where the number is no code.
#[tactic(auto, using(types::proofs::KindLaws::kind_name), unfolding(crate::specs::Weight::tallied))]
fn tally_code(t: Tally, code: u16) -> Option<Tally>
    requires { (t.wanted ≤ 2 ^ 32) × (t.length ≤ 2 ^ 32) }
    ensures { result ≡ tallied code t.wanted t.length }
{
    let kind = CodeKind::try_from(code).ok()?;
    let wanted = t.wanted.saturating_sub(1);
    let length = t.length + comma_before(t.wanted);
    Some(match kind {
        CodeKind::Name => Tally {
            wanted,
            length: length + name_length(u32::from(code)),
        },
        CodeKind::Array => Tally {
            wanted: wanted + 1,
            length: length + 2,
        },
        CodeKind::Tuple(n) => Tally {
            wanted: wanted + usize::from(n),
            length: length + (usize::from(n) + 1),
        },
    })
}

// The length of the text, if the codes are those of types: at the end no type is wanted.
pub fn measure(codes: &[u16]) -> Option<usize>
    requires { length codes.now ≤ codes_max }
    ensures { MeasuredBy codes.now result }
{
    let mut t = Tally {
        wanted: 0,
        length: 0,
    };
    for &code in codes {
        t = tally_code(t, code)?;
    }
    if t.wanted != 0 {
        return None;
    }
    Some(t.length.saturating_sub(1))
}
