// Which question was answered with no.
ghost use Rattle.std.specs.Prelude.{◌≡◌};
ghost use Rattle.limits.specs.Refusal.{number_of, answer_number};

// The number of a call that is taken, which is ours.
pub const TAKEN: u32 = 0;

// The questions in the order of their numbers, each by what a "no" says.
#[derive(Clone, Copy, Debug, PartialEq, Eq)]
pub enum Refusal {
    NoRecords = 1,
    Unsound = 2,
    LongCode = 3,
    BrokenSizes = 4,
    BrokenLabels = 5,
    BrokenFields = 6,
    NoSlot = 7,
    NoRoom = 8,
    ShortTypes = 9,
    BadTypes = 10,
    ShortText = 11,
}

// Document 01's number: "the first "no" gives its number".
impl From<Refusal> for u32 {
    ghost from_gives = { λ refusal number. number ≡ number_of refusal };

    fn from(refusal: Refusal) -> u32 {
        refusal as u32
    }
}

// The same for the answer of a call, 0 where it is taken.
pub fn answer_number<T>(answer: &Result<T, Refusal>) -> u32
    ensures { result ≡ answer_number answer.now }
{
    match answer {
        Ok(_) => TAKEN,
        Err(refusal) => u32::from(*refusal),
    }
}
