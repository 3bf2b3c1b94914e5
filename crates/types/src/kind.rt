// A number at the place of a type.
ghost use Rattle.std.specs.Prelude.{◌≡◌};
ghost use Rattle.types.specs.Kind.{kind_of};

use limits::codes::{ARRAY, TUPLE};
use names::is_name;
use std::error::Error;
use std::fmt;

// What a code says of the type that begins with it; a tuple has a number of types, which follow.
#[derive(Clone, Copy, Debug, PartialEq, Eq)]
pub enum CodeKind {
    Name,
    Array,
    Tuple(u16),
}

// A number with which no type begins.
#[derive(Clone, Copy, Debug, PartialEq, Eq)]
pub struct UnknownCode(pub u16);

impl TryFrom<u16> for CodeKind {
    type Error = UnknownCode;

    ghost try_from_gives = { λ code answer. answer ≡ kind_of code };

    #[tactic(auto, unfolding(crate::specs::Kind::kind_of))]
    fn try_from(code: u16) -> Result<Self, UnknownCode> {
        match u32::from(code) {
            ARRAY => Ok(CodeKind::Array),
            number if TUPLE + 2 <= number => Ok(CodeKind::Tuple((number - TUPLE) as u16)),
            number if is_name(number) => Ok(CodeKind::Name),
            _ => Err(UnknownCode(code)),
        }
    }
}

impl fmt::Display for UnknownCode {
    fn fmt<W: fmt::Write>(&self, f: &mut fmt::Formatter<W>) -> fmt::Result {
        write!(f, "no type begins with code {}", self.0)
    }
}

impl Error for UnknownCode {}
