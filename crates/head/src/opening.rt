// The fresh call: question 1, and then a lone root in the table and the head that goes along with it.
ghost use Rattle.limits.specs.Refusal.{answer_number};
ghost use Rattle.facts.specs.Fresh.{count_of};
ghost use Rattle.head.specs.Held.{held};
ghost use Rattle.head.specs.Fresh.{Outcome};

use crate::{Head, Opened};

// Leaves a lone root, the other records zero, and the decoder active; or refuses a table that question 1 doesn't take,
// and leaves all as it was.
pub fn fresh(head: Head, table: &mut [u32]) -> Opened
    ensures { Outcome (held head table.old) (answer_number result.answer) (count_of result.answer)
        (held result.head table.new) }
{
    let answer = facts::fresh(table);
    let opened = match answer {
        Ok(_) => Head { used: 1, active: 1 },
        Err(_) => head,
    };
    Opened {
        head: opened,
        answer,
    }
}
