// A fact's seen children, in one walk of its chain.
ghost use Rattle.std.specs.Prelude.{◌≡◌, ◌≤◌};
ghost use Rattle.paths.specs.Lent.{facts_of};
ghost use Rattle.list.specs.Seen.{children_in, is_empty, last_key, last_word};
ghost use Rattle.list.specs.Looks.{Looked};

use crate::Children;
use limits::WORD_BYTES;
use paths::Facts;

// Unseen records stand in the chain and are passed over.
pub fn seen_children(facts: &Facts, r: u32) -> Children
    requires { (1 ≤ r) × (r ≤ facts.now.used) }
    ensures { Looked (facts_of facts.now) r result }
{
    let mut count: u32 = 0;
    let mut last_key: u32 = 0;
    let mut last_kind: u32 = 0;
    for c in facts.children(r) {
        if facts.is_seen(c) {
            count += 1;
            last_key = facts.key(c);
            last_kind = facts.kind(c);
        }
    }
    Children {
        count,
        last_key,
        last_kind,
    }
}

// Has a fact no seen child? The walk ends with the first.
pub fn is_childless(facts: &Facts, r: u32) -> bool
    requires { (1 ≤ r) × (r ≤ facts.now.used) }
    ensures { result ≡ is_empty (children_in (facts_of facts.now) r) }
{
    for child in facts.children(r) {
        if facts.is_seen(child) {
            return false;
        }
    }
    true
}

// The last word of a fact whose seen children end at this key.
pub fn last_word(facts: &Facts, r: u32, last: u32) -> u32
    requires le_r { (1 ≤ r) × (r ≤ facts.now.used) }
    requires last_value { last ≡ last_key (facts_of facts.now) r }
    ensures { result ≡ last_word (facts_of facts.now) r }
{
    facts.count(r).max(last / WORD_BYTES)
}
