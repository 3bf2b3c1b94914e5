// Reading labels, and words with their labels.
ghost use Rattle.std.specs.Prelude.{◌≡◌, ◌+◌, ◌≤◌, length};
ghost use Rattle.limits.specs.Layout.{label_width, slot_width};
ghost use Rattle.labels.specs.Label.{mask_at, val_at};
ghost use Rattle.labels.specs.Read.{ReadAs};
ghost use Rattle.labels.specs.Step.{element_at};

use crate::{Element, Label, Val};
use limits::layout::{
    LABEL_ADDED, LABEL_ARGUMENT, LABEL_CALL_DATA, LABEL_MASK, LABEL_MASKED, LABEL_OFFSET,
    LABEL_PATH, LABEL_ZERO_TEST, SLOT_LABEL,
};
use word::U256;
use word::numbers::from_numbers;

fn read_mask(s: &[u32], at: usize) -> Option<U256>
    requires { at + label_width ≤ length s.now }
    ensures { result ≡ mask_at s.now at }
{
    if s[at + LABEL_MASKED] == 1 {
        return Some(from_numbers(s, at + LABEL_MASK));
    }
    None
}

fn read_val(s: &[u32], at: usize) -> Val
    requires { at + label_width ≤ length s.now }
    ensures { result ≡ val_at s.now at }
{
    Val {
        offset: s[at + LABEL_OFFSET],
        path: s[at + LABEL_PATH],
        add_val: s[at + LABEL_ADDED],
        and_mask: read_mask(s, at),
    }
}

// The label at an index of s.
pub fn read_label(s: &[u32], at: usize) -> Label
    requires { at + label_width ≤ length s.now }
    ensures { ReadAs s.now at result }
{
    let kind = s[at];
    if kind == LABEL_ARGUMENT {
        return Label::Arg(read_val(s, at));
    }
    if kind == LABEL_ZERO_TEST {
        return Label::IsZeroResult(read_val(s, at));
    }
    if kind == LABEL_CALL_DATA {
        return Label::CallData;
    }
    Label::Unlabelled
}

// The word at an index of s, with the label behind it.
pub fn read_element(s: &[u32], at: usize) -> Element
    requires { at + slot_width ≤ length s.now }
    ensures { result ≡ element_at s.now at }
{
    let word = from_numbers(s, at);
    let label = read_label(s, at + SLOT_LABEL);
    Element { word, label }
}
