// "A node costs one more than its last word": the cost of each seen record is taken off what is left, children first.
ghost use Rattle.std.specs.Prelude.{◌≡◌, ◌≤◌, ◌==◌, suc, true, IfSome};
ghost use Rattle.limits.specs.Limits.{depth_max};
ghost use Rattle.facts.specs.State.{node_of};
ghost use Rattle.facts.specs.Sound.{Sound};
ghost use Rattle.paths.specs.Lent.{facts_of};
ghost use Rattle.list.specs.Seen.{last_word};
ghost use Rattle.budget.specs.Answer.{left_of, budget_of};
ghost use Rattle.budget.specs.Below.{leaves, Paid};

use crate::Below;
use limits::{BUDGET_MAX, DEPTH_MAX};
use list::last_word;
use paths::Facts;

// What a record with this last word leaves of what its children left, if that is enough.
fn own_left(left: u32, last: u32) -> Option<u32>
    ensures { result ≡ leaves true (suc last) left }
{
    if left <= last {
        return None;
    }
    Some(left - last - 1)
}

// "Facts are the seen records": is the record one, whatever its name?
fn is_fact(facts: &Facts, c: u32) -> bool
    requires { (1 ≤ c) × (c ≤ facts.now.used) }
    ensures { result ≡ ((node_of (facts_of facts.now) c).seen == 1) }
{
    facts.is_seen(c)
}

// What is left after a seen record, which stands at this depth, and all below it, unless that is too deep or costs too
// much. The walk calls itself for each seen child; one with no child of its own costs its last word and one, which is
// taken off at once. A child's number is higher than its parent's, so that fewer numbers are left above it. A child often
// stands in the chain right behind the number before it: where it does, the walk counts on instead of waiting for the
// number that it loads.
fn left_below(facts: &Facts, r: u32, depth: u32, left: u32) -> Option<Below>
    requires le_r { (1 ≤ r) × (r ≤ facts.now.used) × (depth ≤ depth_max) }
    requires seen { (node_of (facts_of facts.now) r).seen ≡ 1 }
    ensures { Paid (facts_of facts.now) r depth left result }
{
    let mut rest = left;
    let mut last_key: u32 = 0;
    let mut child = facts.child(r);
    while child != 0 {
        let mut c = child;
        loop {
            if is_fact(facts, c) {
                if depth == DEPTH_MAX {
                    return None;
                }
                rest = if facts.child(c) == 0 {
                    own_left(rest, last_word(facts, c, 0))?
                } else {
                    left_below(facts, c, depth + 1, rest)?.left
                };
                last_key = facts.key(c);
            }
            let follow = c as usize + 1;
            child = facts.next(c);
            if child as usize != follow {
                break;
            }
            c = follow as u32;
        }
    }
    let last_word = last_word(facts, r, last_key);
    let left = own_left(rest, last_word)?;
    Some(Below { left, last_word })
}

// "`fits_type_budget` starts at depth 0 with 8,192." The root is seen.
pub fn fits_type_budget(facts: &Facts) -> Option<Below>
    requires { Sound facts.now.table.now facts.now.used facts.now.records }
    ensures budget_value { left_of result ≡ budget_of (facts_of facts.now) }
    ensures last_word_value { IfSome result (λ below. below.last_word ≡ last_word (facts_of facts.now) 1) }
{
    left_below(facts, 1, 0, BUDGET_MAX)
}
