// What stands ahead of the codes of a fact's words.
ghost use Rattle.std.specs.Prelude.{◌≡◌, ◌&&◌, ◌*◌, ◌≤◌, suc, max, eqb};
ghost use Rattle.limits.specs.Limits.{dynamic_count_max, word_bytes};
ghost use Rattle.facts.specs.State.{node_of};
ghost use Rattle.paths.specs.Lent.{facts_of};
ghost use Rattle.facts.specs.Sound.{Sound};
ghost use Rattle.list.specs.Looks.{Looked};
ghost use Rattle.list.specs.Types.{name_holds};
ghost use Rattle.type_walk.specs.Plan.{tuple_code, open_plan, kind_plan, plan_of};

use crate::Plan;
use limits::codes::{ARRAY, BYTES, NO_NAME, TUPLE, UINT};
use limits::{KIND_ARRAY, KIND_DYNAMIC, WORD_BYTES};
use list::{Children, last_word, seen_children};
use paths::Facts;

// The code of uint256.
pub const WORD_CODE: u32 = UINT + 256;

// The code of a tuple of so many types, if it is one.
fn tuple_code(n: u32) -> Option<u32>
    requires { n ≤ suc dynamic_count_max }
    ensures { result ≡ tuple_code n }
{
    if 2 <= n { Some(TUPLE + n) } else { None }
}

// Is the name the type?
#[tactic(auto, unfolding(list::specs::Types::name_holds))]
fn name_holds(facts: &Facts, r: u32, childless: bool) -> bool
    requires le_r { (1 ≤ r) × (r ≤ facts.now.used) }
    ensures { result ≡ name_holds (node_of (facts_of facts.now) r) childless }
{
    let kind = facts.kind(r);
    match facts.name(r) {
        NO_NAME => false,
        BYTES => (kind == 0) | ((kind == KIND_DYNAMIC) & (facts.count(r) == 1)),
        _ => childless & (kind != KIND_ARRAY),
    }
}

// Do the keys end at this one?
fn ends_at(last: u32, count: u32, words: u32) -> bool
    requires { words ≤ 1 }
    ensures { result ≡ eqb (max last (word_bytes * count)) (word_bytes * words) }
{
    let end = WORD_BYTES * words;
    (last <= end) & (count <= words) & ((last == end) | (count == words))
}

// A dynamic or plain fact.
#[tactic(auto, unfolding(crate::specs::Plan::open_plan))]
fn open_plan(kind: u32, kids: Children, count: u32, last: u32) -> Plan
    requires { last ≤ dynamic_count_max }
    ensures { result ≡ open_plan kind (eqb kids.count 0) (eqb kids.count 1 && eqb kids.last_kind 0)
        (max kids.last_key (word_bytes * count)) last }
{
    let dynamic = kind == KIND_DYNAMIC;
    let childless = kids.count == 0;
    let lone = (kids.count == 1) & (kids.last_kind == 0);
    let none = ends_at(kids.last_key, count, 0);
    let one = ends_at(kids.last_key, count, 1);
    if dynamic & none & childless {
        return Plan {
            first: Some(BYTES),
            second: None,
            start: 0,
            words: 0,
        };
    }
    if dynamic & one & childless {
        return Plan {
            first: Some(ARRAY),
            second: Some(WORD_CODE),
            start: 0,
            words: 0,
        };
    }
    if dynamic & one & lone {
        return Plan {
            first: Some(ARRAY),
            second: None,
            start: 1,
            words: 1,
        };
    }
    Plan {
        first: tuple_code(last + 1),
        second: None,
        start: 0,
        words: last + 1,
    }
}

// By kind, for a fact whose name is not its type.
#[tactic(auto, unfolding(crate::specs::Plan::kind_plan))]
fn kind_plan(facts: &Facts, r: u32, kids: Children) -> Plan
    requires sound { Sound facts.now.table.now facts.now.used facts.now.records }
    requires le_r { (1 ≤ r) × (r ≤ facts.now.used) }
    requires looked { Looked (facts_of facts.now) r kids }
    ensures { result ≡ kind_plan (facts_of facts.now) r }
{
    let last = last_word(facts, r, kids.last_key);
    let kind = facts.kind(r);
    if kind == KIND_ARRAY {
        return Plan {
            first: Some(ARRAY),
            second: tuple_code(last),
            start: 1,
            words: last,
        };
    }
    open_plan(kind, kids, facts.count(r), last)
}

// What stands ahead for a fact, and which of its words follow.
#[tactic(auto, unfolding(crate::specs::Plan::plan_of))]
pub fn plan_of(facts: &Facts, r: u32) -> Plan
    requires sound { Sound facts.now.table.now facts.now.used facts.now.records }
    requires le_r { (1 ≤ r) × (r ≤ facts.now.used) }
    ensures { result ≡ plan_of (facts_of facts.now) r }
{
    let kids = seen_children(facts, r);
    if name_holds(facts, r, kids.count == 0) {
        return Plan {
            first: Some(facts.name(r)),
            second: None,
            start: 0,
            words: 0,
        };
    }
    kind_plan(facts, r, kids)
}
