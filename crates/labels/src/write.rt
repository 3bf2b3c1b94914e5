// Writing labels and small words.
ghost use Rattle.std.specs.Prelude.{◌≡◌, ◌+◌, ◌≤◌, [], ◌∷◌, length};
ghost use Rattle.std.proofs.lemmas.List.Edits.{sets};
ghost use Rattle.limits.specs.Layout.{word_width, label_width};
ghost use Rattle.labels.specs.Label.{mask_numbers, val_numbers, label_numbers};
ghost use Rattle.labels.specs.Step.{small_word};

use crate::{Label, Val};
use limits::layout::{
    LABEL_ARGUMENT, LABEL_CALL_DATA, LABEL_MASKED, LABEL_NONE, LABEL_PATH, LABEL_ZERO_TEST,
};
use word::U256;
use word::numbers::put_numbers;

// Stores a word below 2^32 at an index of s.
pub fn put_small(s: &mut [u32], at: usize, n: u32)
    requires { at + word_width ≤ length s.old }
    ensures { s.new ≡ sets s.old at (small_word n) }
{
    let x = U256 {
        l0: u64::from(n),
        ..U256::ZERO
    };
    put_numbers(s, at, x);
}

fn put_two(s: &mut [u32], at: usize, a: u32, b: u32)
    requires { at + 2 ≤ length s.old }
    ensures { s.new ≡ sets s.old at (a ∷ b ∷ []) }
{
    s[at] = a;
    s[at + 1] = b;
}

// Stores the nine numbers of a mask.
fn put_mask(s: &mut [u32], at: usize, mask: Option<U256>)
    requires { at + 9 ≤ length s.old }
    ensures { s.new ≡ sets s.old at (mask_numbers mask) }
{
    match mask {
        None => {
            s[at] = 0;
            put_small(s, at + 1, 0);
        }
        Some(m) => {
            s[at] = 1;
            put_numbers(s, at + 1, m);
        }
    }
}

// Stores the numbers of a label that says something of an argument.
fn put_val(s: &mut [u32], at: usize, kind: u32, val: Val)
    requires { at + label_width ≤ length s.old }
    ensures { s.new ≡ sets s.old at (val_numbers kind val) }
{
    put_two(s, at, kind, val.offset);
    put_two(s, at + LABEL_PATH, val.path, val.add_val);
    put_mask(s, at + LABEL_MASKED, val.and_mask);
}

// Stores the label at an index of s; all else keeps its value.
pub fn put_label(s: &mut [u32], at: usize, label: Label)
    requires { at + label_width ≤ length s.old }
    ensures { s.new ≡ sets s.old at (label_numbers label) }
{
    let blank = Val {
        offset: 0,
        path: 0,
        add_val: 0,
        and_mask: None,
    };
    match label {
        Label::Unlabelled => put_val(s, at, LABEL_NONE, blank),
        Label::CallData => put_val(s, at, LABEL_CALL_DATA, blank),
        Label::Arg(val) => put_val(s, at, LABEL_ARGUMENT, val),
        Label::IsZeroResult(val) => put_val(s, at, LABEL_ZERO_TEST, val),
    }
}
