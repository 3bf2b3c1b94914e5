// A plan run on the facts.
ghost use Rattle.std.specs.Prelude.{◌≡◌, ◌≤◌, length};
ghost use Rattle.paths.specs.Lent.{facts_of, facts_in, Grows};
ghost use Rattle.operations.specs.Run.{run, run_all};
ghost use Rattle.operations.specs.Asks.{Reaches};
ghost use Rattle.analyze.specs.Plan.{hint_operations, operations, is_array};
ghost use Rattle.analyze.specs.Ready.{HintsReach, PlanReaches};
ghost use Rattle.step.specs.Decide.{RanFirst, RanPlan};

use crate::Ran;
use analyze::{Hints, Plan};
use limits::KIND_ARRAY;
use operations::{Operation, make_dynamic, run};
use paths::{Facts, FactsMut};

// Clears the hints.
#[tactic(auto, unfolding(operations::specs::Run::run_all))]
pub fn run_hints(facts: &mut FactsMut, hints: Hints)
    requires reach { HintsReach facts.old.used hints }
    requires room { length (run_all (facts_in facts.old) (hint_operations hints)) ≤ facts.old.records }
    ensures { Grows facts.old facts.new (run_all (facts_in facts.old) (hint_operations hints)) }
{
    run(facts, hints.first);
    run(facts, hints.second);
}

// Runs the first operation of a plan. Answers the path that it makes dynamic, 0 for none.
fn run_first(facts: &mut FactsMut, operation: Operation) -> u32
    requires reach { Reaches facts.old.used operation }
    requires room { length (run (facts_in facts.old) operation) ≤ facts.old.records }
    ensures { RanFirst facts.old facts.new operation result }
{
    let Operation::SetDynamic(path, offset, count) = operation else {
        run(facts, operation);
        return 0;
    };
    make_dynamic(facts, path, offset, count)
}

// Is record r, 0 for none, an array?
fn is_array(facts: &Facts, r: u32) -> bool
    requires { r ≤ facts.now.used }
    ensures { result ≡ is_array (facts_of facts.now) r }
{
    (r != 0) && (facts.kind(r) == KIND_ARRAY)
}

// Runs the operations of a plan, in order.
#[tactic(auto, unfolding(operations::specs::Run::run_all))]
pub fn run_plan(facts: &mut FactsMut, plan: Plan) -> Ran
    requires reach { PlanReaches facts.old.used plan }
    requires room { length (run_all (facts_in facts.old) (operations plan)) ≤ facts.old.records }
    ensures { RanPlan facts.old facts.new plan result }
{
    let path = run_first(facts, plan.first);
    run(facts, plan.second);
    run(facts, plan.third);
    let array = is_array(&facts.read(), path);
    Ran { path, array }
}
