// Question 2's tests of one record, its chain apart.
ghost use Rattle.std.specs.Prelude.{◌≡◌, ◌&&◌};
ghost use Rattle.facts.specs.Access.{HasRecord};
ghost use Rattle.facts.specs.State.{node_at};
ghost use Rattle.facts.specs.Fact.{are_flags, is_bare, is_kind, is_confidence, is_count, is_named};
ghost use Rattle.facts.specs.Checks.{is_record, is_root};

use crate::table::field;
use limits::codes::NO_NAME;
use limits::fields::{BLOCKED, CONFIDENCE, COUNT, KEY, KIND, NAME, NEXT, NOT_BOOL, PARENT, SEEN};
use limits::{ARRAY_COUNT_MAX, CONFIDENCE_MAX, DYNAMIC_COUNT_MAX, KIND_ARRAY, KIND_DYNAMIC};
use names::is_name;

// Are the flags 0 or 1?
fn are_flags(table: &[u32], r: u32) -> bool
    requires { HasRecord table.now r }
    ensures { result ≡ are_flags (node_at table.now r) }
{
    (field(table, r, SEEN) <= 1)
        & (field(table, r, NOT_BOOL) <= 1)
        & (field(table, r, BLOCKED) <= 1)
}

// Are the last five fields zero?
fn is_bare(table: &[u32], r: u32) -> bool
    requires { HasRecord table.now r }
    ensures { result ≡ is_bare (node_at table.now r) }
{
    (field(table, r, BLOCKED) == 0)
        & (field(table, r, KIND) == 0)
        & (field(table, r, COUNT) == 0)
        & (field(table, r, NAME) == 0)
        & (field(table, r, CONFIDENCE) == 0)
}

// Is the kind none, dynamic or array, with a count for it? Most records have neither kind nor count.
fn is_count(table: &[u32], r: u32) -> bool
    requires { HasRecord table.now r }
    ensures { result ≡ (is_kind (node_at table.now r) && is_count (node_at table.now r)) }
{
    let kind = field(table, r, KIND);
    let count = field(table, r, COUNT);
    if (kind == 0) & (count == 0) {
        return true;
    }
    if kind == KIND_DYNAMIC {
        return count <= DYNAMIC_COUNT_MAX;
    }
    (kind == KIND_ARRAY) & (1 <= count) & (count <= ARRAY_COUNT_MAX)
}

// Is the name none, with no confidence, or a code with a width that the ABI knows, with one?
fn is_named(table: &[u32], r: u32) -> bool
    requires { HasRecord table.now r }
    ensures { result ≡ (is_confidence (node_at table.now r) && is_named (node_at table.now r)) }
{
    let name = field(table, r, NAME);
    let confidence = field(table, r, CONFIDENCE);
    if name == NO_NAME {
        return confidence == 0;
    }
    if confidence < 1 {
        return false;
    }
    if CONFIDENCE_MAX < confidence {
        return false;
    }
    is_name(name)
}

// Does the record pass all of these? The first test that fails is the last one: in a sound table none does, so that the
// processor foresees the branches.
#[tactic(auto, unfolding(crate::specs::Checks::is_record))]
pub fn is_record(table: &[u32], r: u32) -> bool
    requires { HasRecord table.now r }
    ensures { result ≡ is_record (node_at table.now r) }
{
    if !are_flags(table, r) {
        return false;
    }
    if field(table, r, SEEN) == 0 {
        return is_bare(table, r);
    }
    if !is_count(table, r) {
        return false;
    }
    is_named(table, r)
}

// Is record 1 a root: seen, otherwise zero but for child?
#[tactic(auto, unfolding(crate::specs::Checks::is_root))]
pub fn is_root(table: &[u32]) -> bool
    requires { HasRecord table.now 1 }
    ensures { result ≡ is_root table.now }
{
    (field(table, 1, SEEN) == 1)
        & (field(table, 1, KEY) == 0)
        & (field(table, 1, PARENT) == 0)
        & (field(table, 1, NEXT) == 0)
        & (field(table, 1, NOT_BOOL) == 0)
        & is_bare(table, 1)
}
