// The fresh call.
ghost use Rattle.std.specs.Prelude.{◌≡◌, length};
ghost use Rattle.limits.specs.Refusal.{answer_number};
ghost use Rattle.facts.specs.Count.{CountAnswer};
ghost use Rattle.facts.specs.Fresh.{fresh_table, count_of};

use crate::count::record_count;
use crate::table::set_field;
use limits::Refusal;
use limits::fields::SEEN;

// Leaves a lone root, the other records zero, if question 1 takes the table; its answer.
pub fn fresh(table: &mut [u32]) -> Result<u32, Refusal>
    ensures count_answer { CountAnswer (length table.old) (answer_number result) (count_of result) }
    ensures table_after { table.new ≡ fresh_table result table.old }
{
    let n = record_count(table.len())?;
    table.fill(0);
    set_field(table, 1, SEEN, 1);
    Ok(n)
}
