// Questions 1 and 2.
ghost use Rattle.head.specs.Held.{held};
ghost use Rattle.head.specs.Admitting.{AdmittedBy};

use crate::Head;
use facts::{is_sound, record_count};
use limits::Refusal;

// How many records the table has, or which of both questions was answered with no; the table may hold any numbers.
pub fn records_of(head: Head, table: &[u32]) -> Result<u32, Refusal>
    ensures { AdmittedBy (held head table.now) result }
{
    let n = record_count(table.len())?;
    if 1 < head.active {
        return Err(Refusal::Unsound);
    }
    if !is_sound(table, n, head.used) {
        return Err(Refusal::Unsound);
    }
    Ok(n)
}
