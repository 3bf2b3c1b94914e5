// Reading a step.
ghost use Rattle.std.specs.Prelude.{◌≡◌, ◌≤◌, length, get_or};
ghost use Rattle.limits.specs.Layout.{step_width, step_op};
ghost use Rattle.labels.specs.Step.{step_of};

use crate::Step;
use crate::read::{read_element, read_label};
use limits::layout::{STEP_FIRST, STEP_LOAD, STEP_OP, STEP_PC, STEP_PICK, STEP_SECOND};

// The step that 59 numbers say; question 6 has bounded its opcode.
#[tactic(auto, unfolding(crate::specs::Step::step_of))]
pub fn read_step(s: &[u32]) -> Step
    requires s_len { length s.now ≡ step_width }
    requires step_op_bound { get_or s.now step_op 0 ≤ 255 }
    ensures { result ≡ step_of s.now }
{
    let first = read_element(s, STEP_FIRST);
    let second = read_element(s, STEP_SECOND);
    let load = read_label(s, STEP_LOAD);
    Step {
        op: s[STEP_OP] as u8,
        pc: s[STEP_PC],
        first,
        second,
        pick: s[STEP_PICK],
        load,
    }
}
