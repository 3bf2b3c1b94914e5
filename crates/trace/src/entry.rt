// One entry of a list: how many codes its type has, found from the left by how many types are still wanted.
ghost use Rattle.std.specs.Prelude.{◌≡◌, ◌≤◌, ◌<◌, length};
ghost use Rattle.limits.specs.Limits.{codes_max};
ghost use Rattle.types.specs.Kind.{kind_of};
ghost use Rattle.trace.specs.Entry.{follow, span};

use types::CodeKind;

// How many types follow a code.
#[tactic(auto, using(types::proofs::KindLaws::kind_tuple))]
fn following(code: u16) -> usize
    ensures { (result ≡ follow (kind_of code)) × (result < 65536) }
{
    match CodeKind::try_from(code) {
        Ok(CodeKind::Array) => 1,
        Ok(CodeKind::Tuple(n)) => usize::from(n),
        Ok(CodeKind::Name) | Err(_) => 0,
    }
}

// How many codes the first type of a list has.
pub fn entry_length(codes: &[u16]) -> usize
    requires { length codes.now ≤ codes_max }
    ensures { (result ≡ span 1 codes.now) × (result ≤ length codes.now) }
{
    let mut wanted: usize = 1;
    for (i, &code) in codes.iter().enumerate() {
        if wanted == 0 {
            return i;
        }
        wanted = wanted - 1 + following(code);
    }
    codes.len()
}
