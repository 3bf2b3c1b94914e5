// What a step asks of its operands' labels.
ghost use Rattle.std.specs.Prelude.{◌≡◌, Bool};
ghost use Rattle.labels.specs.Operands.{is_unmasked, is_length, is_unmasked_length, AnswersAs, choose, chosen_or};
ghost use Rattle.labels.specs.Operands.{same_arg, is_length_of};

use crate::{Choice, Element, Label, Val};
use word::U256;

pub fn is_unmasked(mask: Option<U256>) -> bool
    ensures { result ≡ is_unmasked mask }
{
    mask.is_none()
}

// Is it a length: offset 0, nothing added?
#[tactic(auto, unfolding(crate::specs::Operands::is_length))]
pub fn is_length(val: Val) -> bool
    ensures { result ≡ is_length val }
{
    (val.offset == 0) & (val.add_val == 0)
}

// Is it one with no mask?
#[tactic(auto, unfolding(crate::specs::Operands::is_unmasked_length))]
pub fn is_unmasked_length(val: Val) -> bool
    ensures { result ≡ is_unmasked_length val }
{
    is_length(val) & is_unmasked(val.and_mask)
}

// The operand e, if it is an argument that the test takes, beside the other one; otherwise d.
fn chosen_or<F: Fn(Val) -> bool>(
    takes: &F,
    e: Element,
    other: Element,
    d: Option<Choice>,
) -> Option<Choice>
    requires { F.IsAlwaysCallable takes.now }
    ensures { (test : Val → Bool) → AnswersAs (F.post takes.now) test → result ≡ chosen_or test e other d }
{
    match e.label {
        Label::Arg(val) if takes(val) => Some(Choice {
            val,
            own: e.word,
            other,
        }),
        _ => d,
    }
}

// The first operand that is an argument that the test takes.
#[tactic(auto, unfolding(crate::specs::Operands::choose))]
pub fn choose<F: Fn(Val) -> bool>(takes: F, a: Element, b: Element) -> Option<Choice>
    requires { F.IsAlwaysCallable takes }
    ensures { (test : Val → Bool) → AnswersAs (F.post takes) test → result ≡ choose test a b }
{
    chosen_or(&takes, a, b, chosen_or(&takes, b, a, None))
}

// Do two labels speak of one argument with one constant added?
#[tactic(auto, unfolding(crate::specs::Operands::same_arg))]
pub fn same_arg(v: Val, w: Val) -> bool
    ensures { result ≡ same_arg v w }
{
    (v.offset == w.offset) & (v.path == w.path) & (v.add_val == w.add_val)
}

// Is it the length at that path, masked or not?
#[tactic(auto, unfolding(crate::specs::Operands::is_length_of))]
pub fn is_length_of(path: u32, label: Label) -> bool
    ensures { result ≡ is_length_of path label }
{
    let Label::Arg(val) = label else {
        return false;
    };
    is_length(val) & (val.path == path)
}
