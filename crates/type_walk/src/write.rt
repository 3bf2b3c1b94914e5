// The walk.
ghost use Rattle.std.specs.Prelude.{◌≡◌, ◌+◌, ◌^◌, ◌≤◌, ◌<◌, length};
ghost use Rattle.std.specs.Option.{ForSome};
ghost use Rattle.std.proofs.lemmas.List.Edits.{sets};
ghost use Rattle.limits.specs.Limits.{types_room};
ghost use Rattle.paths.specs.Lent.{facts_of};
ghost use Rattle.facts.specs.Sound.{Sound};
ghost use Rattle.types.specs.Codes.{codes, all_codes};
ghost use Rattle.list.specs.Types.{word_types};
ghost use Rattle.type_walk.specs.Plan.{lead, leads, word_type};
ghost use Rattle.type_walk.specs.Walk.{Led};

use crate::ahead::plan_of;
use crate::leaves::{leaf_code, write_gap};
use crate::{Plan, Rest};
use limits::WORD_BYTES;
use paths::Facts;

// Stores a code, if there is one, and answers the index behind it.
fn put_code(types: &mut [u16], at: usize, code: Option<u32>) -> usize
    requires code_bound { ForSome code (λ c. c < 2 ^ 16) }
    requires code_in_bounds { at + length (lead code) ≤ length types.old }
    ensures { (types.new ≡ sets types.old at (lead code)) × (result ≡ at + length (lead code)) }
{
    let Some(code) = code else {
        return at;
    };
    types[at] = code as u16;
    at + 1
}

// Stores what stands ahead.
fn put_plan(types: &mut [u16], at: usize, plan: Plan) -> usize
    requires first_bound { ForSome plan.first (λ c. c < 2 ^ 16) }
    requires second_bound { ForSome plan.second (λ c. c < 2 ^ 16) }
    requires plan_in_bounds { at + length (leads plan) ≤ length types.old }
    ensures { (types.new ≡ sets types.old at (leads plan))
        × (result ≡ at + length (leads plan)) }
{
    let behind = put_code(types, at, plan.first);
    put_code(types, behind, plan.second)
}

// Stores what stands ahead of the codes of a word at whose key the record c stands. Most have one code.
fn write_ahead(facts: &Facts, c: u32, types: &mut [u16], at: usize) -> Rest
    requires sound { Sound facts.now.table.now facts.now.used facts.now.records }
    requires le_c { (1 ≤ c) × (c ≤ facts.now.used) }
    requires c_bound { at + length (codes (word_type (facts_of facts.now) c)) ≤ types_room }
    requires types_room_in_bounds { types_room ≤ length types.old }
    ensures { Led (facts_of facts.now) c types.old at types.new result }
{
    match leaf_code(facts, c) {
        Some(code) => {
            types[at] = code as u16;
            Rest {
                start: 0,
                words: 0,
                to: at + 1,
            }
        }
        None => {
            let plan = plan_of(facts, c);
            Rest {
                start: plan.start,
                words: plan.words,
                to: put_plan(types, at, plan),
            }
        }
    }
}

// Stores the codes of so many words of a fact from one on, and answers the index behind them. A child at a word's key
// has that word's codes: what stands ahead is stored, and a call of its own stores the words that follow. The words
// before it that have no child, and those behind the last one, have uint256. Where a child's number follows the one
// before, the walk counts on instead of waiting for the number that it loads. A child's number is higher than the
// parent's, so that fewer numbers are left above it.
pub fn write_words(
    facts: &Facts,
    r: u32,
    start: u32,
    words: u32,
    types: &mut [u16],
    at: usize,
) -> usize
    requires sound { Sound facts.now.table.now facts.now.used facts.now.records }
    requires le_r { (1 ≤ r) × (r ≤ facts.now.used) × (start ≤ 1) }
    requires words_bound { at + length (all_codes (word_types (facts_of facts.now) r start words)) ≤ types_room }
    requires types_room_in_bounds { types_room ≤ length types.old }
    ensures types_after { types.new ≡ sets types.old at
        (all_codes (word_types (facts_of facts.now) r start words)) }
    ensures value { result ≡ at + length (all_codes (word_types (facts_of facts.now) r start words)) }
{
    let end = start + words;
    let mut next = start;
    let mut to = at;
    let mut child = facts.child(r);
    while child != 0 {
        let mut c = child;
        loop {
            let key = facts.key(c);
            let word = key / WORD_BYTES;
            if end <= word {
                return write_gap(types, to, end - next);
            }
            if (next <= word) & (key % WORD_BYTES == 0) {
                to = write_gap(types, to, word - next);
                let ahead = write_ahead(facts, c, types, to);
                to = ahead.to;
                if ahead.words != 0 {
                    to = write_words(facts, c, ahead.start, ahead.words, types, to);
                }
                next = word + 1;
            }
            let follow = c as usize + 1;
            child = facts.next(c);
            if child as usize != follow {
                break;
            }
            c = follow as u32;
        }
    }
    write_gap(types, to, end - next)
}
