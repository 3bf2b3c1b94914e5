// Question 5: are labels and replaced marks well formed?
ghost use Rattle.std.specs.Prelude.{◌≡◌, ◌+◌, ◌*◌, ◌/◌, ◌≤◌, length};
ghost use Rattle.limits.specs.Layout.{label_width, entry_width};
ghost use Rattle.labels.specs.Formed.{is_mask, is_label, is_entry, are_slots, are_entries};

use limits::layout::{
    ENTRY_LABEL, ENTRY_REPLACED, ENTRY_WIDTH, LABEL_CALL_DATA, LABEL_MASK, LABEL_MASKED,
    LABEL_OFFSET, LABEL_PATH, LABEL_WIDTH, LABEL_ZERO_TEST, SLOT_LABEL, SLOT_WIDTH, WORD_WIDTH,
};
use zeros::are_zero;

// Numbers of a label behind its kind.
const BEHIND_KIND: usize = LABEL_WIDTH - LABEL_OFFSET;

fn is_mask(s: &[u32], at: usize) -> bool
    requires { at + label_width ≤ length s.now }
    ensures { result ≡ is_mask s.now at }
{
    let masked = s[at + LABEL_MASKED];
    if masked == 0 {
        return are_zero(s, at + LABEL_MASK, WORD_WIDTH);
    }
    masked == 1
}

// Is the label at an index of s well formed, its path one of the first `used` records?
#[tactic(auto, unfolding(crate::specs::Formed::is_label))]
pub fn is_label(s: &[u32], at: usize, used: u32) -> bool
    requires { at + label_width ≤ length s.now }
    ensures { result ≡ is_label used s.now at }
{
    let kind = s[at];
    if kind <= LABEL_CALL_DATA {
        return are_zero(s, at + LABEL_OFFSET, BEHIND_KIND);
    }
    let path = s[at + LABEL_PATH];
    (kind <= LABEL_ZERO_TEST) & ((1 <= path) & (path <= used)) & is_mask(s, at)
}

// Are all labels of the stack?
pub fn are_slots(s: &[u32], used: u32) -> bool
    ensures { result ≡ are_slots used s.now }
{
    (0..s.len() / SLOT_WIDTH).all(|i| is_label(s, i * SLOT_WIDTH + SLOT_LABEL, used))
}

// Are an entry's replaced mark and its label?
fn is_entry(s: &[u32], at: usize, used: u32) -> bool
    requires { at + entry_width ≤ length s.now }
    ensures { result ≡ is_entry used s.now at }
{
    (s[at + ENTRY_REPLACED] <= 1) & is_label(s, at + ENTRY_LABEL, used)
}

// Are all of the memory?
pub fn are_entries(s: &[u32], used: u32) -> bool
    ensures { result ≡ are_entries used s.now }
{
    (0..s.len() / ENTRY_WIDTH).all(|i| is_entry(s, i * ENTRY_WIDTH, used))
}
