// An operation run.
ghost use Rattle.std.specs.Prelude.{◌≡◌, ◌≤◌, length};
ghost use Rattle.paths.specs.Make.{ensure};
ghost use Rattle.paths.specs.Lent.{facts_in, Grows};
ghost use Rattle.operations.specs.declared.Operation.TheVariants.{SetDynamic};
ghost use Rattle.operations.specs.Run.{run};
ghost use Rattle.operations.specs.Asks.{IsUsed, Reaches};

use crate::Operation;
use kinds::{set_array, set_dynamic};
use marks::{clear_range_hint, clear_range_hints, insert_not_bool, mark_not_bool, set_tname};
use paths::FactsMut;

// Makes the path and makes it dynamic; answers its number.
pub fn make_dynamic(facts: &mut FactsMut, path: u32, offset: u32, count: u32) -> u32
    requires used { IsUsed facts.old.used path }
    requires room { length (run (facts_in facts.old) (SetDynamic path offset count)) ≤ facts.old.records }
    ensures grows { Grows facts.old facts.new (run (facts_in facts.old) (SetDynamic path offset count)) }
    ensures number_value { (result ≡ (ensure (facts_in facts.old) path offset).number) × (result ≤ facts.new.used) }
{
    let number = facts.ensure_child(path, offset);
    set_dynamic(facts, number, count);
    number
}

pub fn run(facts: &mut FactsMut, operation: Operation)
    requires reaches { Reaches facts.old.used operation }
    requires room { length (run (facts_in facts.old) operation) ≤ facts.old.records }
    ensures { Grows facts.old facts.new (run (facts_in facts.old) operation) }
{
    match operation {
        Operation::Nothing => {}
        Operation::ClearRangeHint(p, k, block) => clear_range_hint(facts, p, k, block),
        Operation::ClearRangeHints => clear_range_hints(facts),
        Operation::MarkNotBool(p, k) => mark_not_bool(facts, p, k),
        Operation::InsertNotBool(p, k) => insert_not_bool(facts, p, k),
        Operation::GetOrCreate(p, k) => {
            facts.get_or_create(p, k);
        }
        Operation::SetTname(p, k, name, confidence) => set_tname(facts, p, k, name, confidence),
        Operation::SetDynamic(p, k, count) => {
            make_dynamic(facts, p, k, count);
        }
        Operation::SetArray(r, count) => set_array(facts, r, count),
    }
}
