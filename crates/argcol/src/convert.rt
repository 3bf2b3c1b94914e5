// Answers as numbers, and the packed word from numbers.
ghost use Rattle.std.specs.Prelude.{◌≡◌, Ok};
ghost use Rattle.closing.specs.Answer.{verdict_of};
ghost use Rattle.argcol.specs.Numbers.{values_after, packed_of};
ghost use Rattle.argcol.specs.Lengths.{length_after};

use crate::Values;
use closing::Closing;
use limits::Refusal;
use word::U256;
use word::numbers::from_numbers;

// The kinds of a closing that is taken.
const NONE: u32 = 1;

const OVER: u32 = 2;

const GRANTED: u32 = 3;

// The text's length, or what a host has lent for it where the call is refused.
pub fn text_length(answer: Result<usize, Refusal>, lent: usize) -> usize
    ensures { result ≡ length_after answer lent }
{
    answer.unwrap_or(lent)
}

// What is said of a list, in numbers.
fn values_of(said: Closing) -> Values
    ensures { (lent : Values) → result ≡ values_after (verdict_of (Ok said)) lent }
{
    match said {
        Closing::Nothing => Values {
            kind: NONE,
            entries: 0,
            left: 0,
            length: 0,
        },
        Closing::Over => Values {
            kind: OVER,
            entries: 0,
            left: 0,
            length: 0,
        },
        Closing::Granted(granted) => Values {
            kind: GRANTED,
            entries: granted.entries,
            left: granted.left,
            length: granted.length,
        },
    }
}

// A closing's answer in numbers, or what a host has lent for them where the call is refused.
pub fn values_after(answer: Result<Closing, Refusal>, lent: Values) -> Values
    ensures { result ≡ values_after (verdict_of answer) lent }
{
    match answer {
        Ok(said) => values_of(said),
        Err(_) => lent,
    }
}

// The packed word: at flag 0 there is none.
#[tactic(auto, unfolding(crate::specs::Numbers::packed_of))]
pub fn read_packed(flag: u32, word: &[u32; 8]) -> Option<U256>
    ensures { result ≡ packed_of flag word.now }
{
    if flag == 0 {
        return None;
    }
    Some(from_numbers(word, 0))
}
