// Question 1.
ghost use Rattle.facts.specs.Count.{CountAnswer};
ghost use Rattle.facts.specs.Fresh.{count_of};
ghost use Rattle.limits.specs.Refusal.{answer_number};

use limits::{RECORD_WIDTH, RECORDS_MAX, Refusal};

// How many records a table of so many numbers has.
pub fn record_count(numbers: usize) -> Result<u32, Refusal>
    ensures { CountAnswer numbers (answer_number result) (count_of result) }
{
    if numbers % RECORD_WIDTH != 0 {
        return Err(Refusal::NoRecords);
    }
    match u32::try_from(numbers / RECORD_WIDTH) {
        Ok(count) if (1..=RECORDS_MAX).contains(&count) => Ok(count),
        _ => Err(Refusal::NoRecords),
    }
}
