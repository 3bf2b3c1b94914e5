// The words of the head that a closing fills.
ghost use Rattle.std.specs.Prelude.{◌≡◌, ◌&&◌, ◌≤◌, eqb};
ghost use Rattle.limits.specs.Limits.{kind_array, argument_words_max};
ghost use Rattle.facts.specs.State.{node_of};
ghost use Rattle.paths.specs.Lent.{facts_of};
ghost use Rattle.list.specs.Seen.{children_in, is_empty};
ghost use Rattle.closing.specs.Words.{hand, packed_words, min_words, dynamic_args, head_by, fill_count, fill_words};
ghost use Rattle.closing.specs.Dynamics.{summary};

use crate::Dynamics;
use code::{dense_min_calldata_words, direct_min_calldata_words};
use kinds::has_dynamic;
use limits::{ARGUMENT_WORDS_MAX, KIND_ARRAY};
use list::is_childless;
use paths::Facts;
use word::U256;

// What the packed word says, if there is one.
fn packed_words(code: &[u8], start: u32, packed: Option<U256>) -> Option<u32>
    ensures { result ≡ packed_words code.now start packed }
{
    dense_min_calldata_words(code, start, packed?)
}

// The least length of the call data in words: the packed reading overrides the direct one.
fn min_words(code: &[u8], start: u32, packed: Option<U256>) -> Option<u32>
    ensures { result ≡ min_words (hand code.now start packed) }
{
    packed_words(code, start, packed).or_else(|| direct_min_calldata_words(code, start))
}

// The root's dynamic children; the walk ends with the second.
fn dynamic_args(facts: &Facts) -> Dynamics
    ensures { result ≡ summary (dynamic_args (facts_of facts.now)) }
{
    let mut met = Dynamics::Nothing;
    for child in facts.children(1) {
        if has_dynamic(facts, child) {
            met = match met {
                Dynamics::Nothing => Dynamics::One(child),
                _ => return Dynamics::More,
            };
        }
    }
    met
}

// An array with no child: its length is a word behind the head.
fn is_bare_array(facts: &Facts, r: u32) -> bool
    requires { (1 ≤ r) × (r ≤ facts.now.used) }
    ensures { result ≡ eqb (node_of (facts_of facts.now) r).kind kind_array
        && is_empty (children_in (facts_of facts.now) r) }
{
    (facts.kind(r) == KIND_ARRAY) & is_childless(facts, r)
}

// No more than the Rust fills.
fn limited(words: u32) -> u32
    ensures { (result ≡ fill_count (Some words)) × (result ≤ argument_words_max) }
{
    if words <= ARGUMENT_WORDS_MAX {
        words
    } else {
        0
    }
}

// How many words are filled, of a least length of so many.
fn head_words(facts: &Facts, words: u32) -> u32
    ensures { (result ≡ fill_count (head_by (facts_of facts.now) words
        (dynamic_args (facts_of facts.now)))) × (result ≤ argument_words_max) }
{
    match dynamic_args(facts) {
        Dynamics::Nothing => limited(words),
        Dynamics::One(r) if is_bare_array(facts, r) & (words != 0) => limited(words - 1),
        _ => 0,
    }
}

// How many words of the head the closing fills.
#[tactic(auto, unfolding(crate::specs::Words::fill_words))]
pub fn fill_words(facts: &Facts, code: &[u8], start: u32, packed: Option<U256>) -> u32
    ensures { (result ≡ fill_words (facts_of facts.now) (hand code.now start packed))
        × (result ≤ argument_words_max) }
{
    let Some(words) = min_words(code, start, packed) else {
        return 0;
    };
    head_words(facts, words)
}
