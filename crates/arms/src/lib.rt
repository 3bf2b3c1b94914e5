// What a step will do, decided once: each phase and arm answers a plan, and writes nothing. analyze/specs has what each
// says.
#![tactic(auto)]

mod by_opcode;
mod hinting;
mod lengths;
mod loads;
mod naming;
mod plans;
mod ranging;
mod sums;

pub use by_opcode::plan_of;
pub use hinting::hints_of;
