// Question 8: "Are enough records free for those the step adds?"
ghost use Rattle.std.specs.Prelude.{◌≡◌, cond, [], ◌∷◌, ◌≤◌, leb, length};
ghost use Rattle.paths.specs.Lent.{facts_of};
ghost use Rattle.operations.specs.Run.{run_all};
ghost use Rattle.operations.specs.Asks.{Reaches, PathReaches, makes, same, lacks};

use crate::{FullPath, Operation};
use paths::Facts;

// The path that the operation makes, if it makes one.
fn full_path(operation: Operation) -> Option<FullPath>
    ensures { result ≡ makes operation }
{
    match operation {
        Operation::MarkNotBool(path, offset)
        | Operation::InsertNotBool(path, offset)
        | Operation::GetOrCreate(path, offset)
        | Operation::SetTname(path, offset, _, _)
        | Operation::SetDynamic(path, offset, _) => Some(FullPath { path, offset }),
        Operation::Nothing
        | Operation::ClearRangeHint(_, _, _)
        | Operation::ClearRangeHints
        | Operation::SetArray(_, _) => None,
    }
}

// Is there a path, is it missing, and is it not counted yet? 1 if so.
#[tactic(auto, unfolding(crate::specs::Asks::lacks))]
fn lack(facts: &Facts, made: Option<FullPath>, counted: bool) -> u32
    requires { PathReaches facts.now.used made }
    ensures { (result ≡ cond counted 0 (lacks (facts_of facts.now) made)) × (result ≤ 1) }
{
    match made {
        Some(made) if !counted => facts.links().missing(made.path, made.offset),
        _ => 0,
    }
}

// A step's operations, which add three records at most.
const MOST_ADDED: u32 = 3;

// Are enough records free for three operations? While three are free nothing is looked up. Equal paths are one.
pub fn has_room(facts: &Facts, a: Operation, b: Operation, c: Operation) -> bool
    requires { Reaches facts.now.used a × Reaches facts.now.used b × Reaches facts.now.used c }
    ensures { result ≡ leb (length (run_all (facts_of facts.now) (a ∷ b ∷ c ∷ []))) facts.now.records }
{
    let free = facts.records - facts.used;
    if MOST_ADDED <= free {
        return true;
    }
    let first = full_path(a);
    let second = full_path(b);
    let third = full_path(c);
    let one = lack(facts, first, false);
    let two = lack(facts, second, first == second);
    let three = lack(facts, third, (first == third) | (second == third));
    one + two + three <= free
}
