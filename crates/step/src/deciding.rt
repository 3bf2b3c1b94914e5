// What a step will do, decided from what is lent: questions 3 to 8 and its plan. Nothing is written.
ghost use Rattle.step.specs.Decide.{Passed, Decides, lent, IsAdmitted};

use crate::Planned;
use crate::questions::{fields_fit, labels_fit, sizes_fit, slot_there};
use arms::{hints_of, plan_of};
use labels::read_step;
use limits::layout::STEP_OP;
use limits::{CODE_MAX, Refusal};
use opcode::ends_decoder;
use operations::has_room;
use paths::Facts;

// A step that has passed questions 1 to 7: its plan, and question 8.
fn plan_step(
    facts: &Facts,
    active: u32,
    code: &[u8],
    stack: &[u32],
    memory: &[u32],
    numbers: &[u32],
) -> Result<Planned, Refusal>
    requires { Passed facts.now.records (lent facts.now active stack.now memory.now) code.now numbers.now }
    ensures { Decides facts.now.records (lent facts.now active stack.now memory.now)
        code.now numbers.now result }
{
    let active = active == 1;
    let step = read_step(numbers);
    let plan = plan_of(facts, active, code, step);
    if !has_room(facts, plan.first, plan.second, plan.third) {
        return Err(Refusal::NoRoom);
    }
    Ok(Planned {
        hints: hints_of(active, step),
        plan,
        active: active & !ends_decoder(step.op),
    })
}

// A step with a sound table: questions 3 to 7, and then its plan.
pub fn decide(
    facts: &Facts,
    active: u32,
    code: &[u8],
    stack: &[u32],
    memory: &[u32],
    numbers: &[u32],
) -> Result<Planned, Refusal>
    requires { IsAdmitted facts.now active }
    ensures { Decides facts.now.records (lent facts.now active stack.now memory.now)
        code.now numbers.now result }
{
    if CODE_MAX < code.len() {
        return Err(Refusal::LongCode);
    }
    if !sizes_fit(stack, memory, numbers) {
        return Err(Refusal::BrokenSizes);
    }
    if !labels_fit(facts.used, stack, memory, numbers) {
        return Err(Refusal::BrokenLabels);
    }
    if !fields_fit(memory, numbers) {
        return Err(Refusal::BrokenFields);
    }
    if !slot_there(stack, numbers[STEP_OP] as u8) {
        return Err(Refusal::NoSlot);
    }
    plan_step(facts, active, code, stack, memory, numbers)
}
