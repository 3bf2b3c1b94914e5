// Plans put together.
ghost use Rattle.std.specs.Prelude.{◌≡◌};
ghost use Rattle.analyze.specs.Plan.{nothing, one_operation, two_operations, three_operations, with_stack, with_memory};
ghost use Rattle.analyze.specs.Plan.{mark_and_name};

use analyze::{InMemory, OnStack, Plan};
use labels::Val;
use operations::Operation;

pub fn three_operations(first: Operation, second: Operation, third: Operation) -> Plan
    ensures { result ≡ three_operations first second third }
{
    Plan {
        first,
        second,
        third,
        stack: OnStack::Keep,
        memory: InMemory::Keep,
    }
}

pub fn two_operations(first: Operation, second: Operation) -> Plan
    ensures { result ≡ two_operations first second }
{
    three_operations(first, second, Operation::Nothing)
}

pub fn one_operation(first: Operation) -> Plan
    ensures { result ≡ one_operation first }
{
    three_operations(first, Operation::Nothing, Operation::Nothing)
}

pub fn nothing() -> Plan
    ensures { result ≡ nothing }
{
    three_operations(Operation::Nothing, Operation::Nothing, Operation::Nothing)
}

// Two operations, and what is written to the stack.
pub fn and_stack(first: Operation, second: Operation, stack: OnStack) -> Plan
    ensures { result ≡ with_stack (two_operations first second) stack }
{
    Plan {
        stack,
        ..two_operations(first, second)
    }
}

// Two operations, and what is written to the memory.
pub fn and_memory(first: Operation, second: Operation, memory: InMemory) -> Plan
    ensures { result ≡ with_memory (two_operations first second) memory }
{
    Plan {
        memory,
        ..two_operations(first, second)
    }
}

// The argument marked not-bool, then named.
pub fn mark_and_name(val: Val, name: u32, confidence: u32) -> Plan
    ensures { result ≡ mark_and_name val name confidence }
{
    two_operations(
        Operation::MarkNotBool(val.path, val.offset),
        Operation::SetTname(val.path, val.offset, name, confidence),
    )
}
