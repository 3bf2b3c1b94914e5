// The chains of question 2, and the tests of the records in them.
ghost use Rattle.std.specs.Prelude.{◌≡◌, true, ◌+◌, ◌*◌, ◌^◌, ◌≤◌, ◌<◌, length};
ghost use Rattle.limits.specs.Limits.{record_width, records_max};
ghost use Rattle.facts.specs.Access.{HasRecord};
ghost use Rattle.facts.specs.Linked.{Chained};
ghost use Rattle.facts.specs.Checks.{is_root, AreRecords};
ghost use Rattle.facts.specs.Checks.{Tells};
ghost use Rattle.facts.specs.Weights.{weight, weight_end, Leads, Under, Weighs, Adds};

use crate::fact::is_record;
use crate::table::field;
use limits::fields::{CHILD, KEY, NEXT, PARENT, SEEN};

// What a link weighs beside its key: more than all keys of a table together, 16,384 of them below 2^32.
const LINK_WEIGHT: u64 = 140737488355328;

// Has the parent a lower number, and is it seen if the record is?
fn is_under(table: &[u32], r: u32) -> bool
    requires { HasRecord table.now r }
    ensures { Tells result (Under table.now r) }
{
    let p = field(table, r, PARENT);
    if p < 1 {
        return false;
    }
    if r <= p {
        return false;
    }
    if field(table, p, SEEN) < field(table, r, SEEN) {
        return false;
    }
    true
}

// What a record weighs.
#[tactic(auto, unfolding(crate::specs::Weights::weight))]
fn weight_of(table: &[u32], r: u32) -> u64
    requires { HasRecord table.now r }
    ensures { (result ≡ weight table.now r) × (result < weight_end) }
{
    LINK_WEIGHT + u64::from(field(table, r, KEY))
}

// What links of that weight come to with one more, to record c, 0 for none, which stands in the chain of p behind one
// that weighs so much. That its number is higher than its parent's is asked of each record by itself.
fn with_link(table: &[u32], used: u32, p: u32, before: u64, c: u32, links: u64) -> Option<u64>
    requires record_width_in_bounds { used * record_width ≤ length table.now }
    requires weight_end_bound { links + weight_end ≤ 2 ^ 64 }
    ensures { Weighs result (Leads table.now used p before c) table.now c links }
{
    if c == 0 {
        return Some(links);
    }
    if used < c {
        return None;
    }
    if field(table, c, PARENT) != p {
        return None;
    }
    let weight = weight_of(table, c);
    if weight <= before {
        return None;
    }
    Some(links + weight)
}

// The same with both links of record r, if its parent is below it and its own fields pass their tests.
fn with_record(table: &[u32], used: u32, r: u32, links: u64) -> Option<u64>
    requires record_width_in_bounds { (1 < r) × (r ≤ used) × (used * record_width ≤ length table.now) }
    requires weight_end_bound { links + 2 * weight_end ≤ 2 ^ 64 }
    ensures { Adds result table.now used r links }
{
    if !is_under(table, r) {
        return None;
    }
    let down = with_link(table, used, r, 0, field(table, r, CHILD), links)?;
    let own = weight_of(table, r);
    let on = with_link(
        table,
        used,
        field(table, r, PARENT),
        own,
        field(table, r, NEXT),
        down,
    )?;
    if !is_record(table, r) {
        return None;
    }
    Some(on)
}

// Does each used record but the root stand once in the chain of its parent, and nothing else in a chain, and do all
// pass their tests? One pass in the order of the numbers looks at each record's own links, so that no load waits for
// the one before. Each link weighs as much as the record that it leads to: a record that stands in no chain either has
// no next one, and a link is missing, or leads to a higher key than its own, and the links weigh more.
pub fn are_chained_records(table: &[u32], used: u32) -> bool
    requires le_used { (1 ≤ used) × (used ≤ records_max) }
    requires record_width_in_bounds { used * record_width ≤ length table.now }
    requires table_value { is_root table.now ≡ true }
    ensures { Tells result (Chained table.now used × AreRecords table.now used) }
{
    let Some(mut links) = with_link(table, used, 1, 0, field(table, 1, CHILD), 0) else {
        return false;
    };
    let mut records: u64 = 0;
    for r in 2..used + 1 {
        let Some(on) = with_record(table, used, r, links) else {
            return false;
        };
        links = on;
        records += weight_of(table, r);
    }
    links == records
}
