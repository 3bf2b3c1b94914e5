// The closing's fill of the head: the paths of its first words, by rising key.
ghost use Rattle.std.specs.Prelude.{◌≡◌, ◌+◌, ◌≤◌};
ghost use Rattle.limits.specs.Limits.{argument_words_max};
ghost use Rattle.paths.specs.Lent.{facts_of, facts_in, Grows};
ghost use Rattle.kinds.specs.Fill.{fill};
ghost use Rattle.kinds.specs.Missing.{fill_missing};

use limits::WORD_BYTES;
use paths::{Facts, FactsMut};

// How many paths `fill` would add. The root's chain is walked once, beside the keys of the words: the walk for a word
// goes on behind the last child up to the key before.
pub fn fill_missing(facts: &Facts, words: u32) -> u32
    requires { words ≤ argument_words_max }
    ensures { (result ≡ fill_missing (facts_of facts.now) words) × (result ≤ words) }
{
    let links = facts.links();
    let mut absent: u32 = 0;
    let mut prev: u32 = 0;
    for i in 0..words {
        let key = WORD_BYTES * i;
        let spot = links.place(1, key, prev);
        match links.find_at(1, key, spot) {
            Some(c) => prev = c,
            None => {
                absent += 1;
                prev = spot.prev;
            }
        }
    }
    absent
}

// Makes the paths of the first words, and makes them seen. The root's chain is walked once, as above.
pub fn fill(facts: &mut FactsMut, words: u32)
    requires words_le_argument_words_max { words ≤ argument_words_max }
    requires room { facts.old.used + fill_missing (facts_in facts.old) words ≤ facts.old.records }
    ensures grows { Grows facts.old facts.new (fill (facts_in facts.old) words) }
    ensures value { facts.new.used ≡ facts.old.used + fill_missing (facts_in facts.old) words }
{
    let mut prev: u32 = 0;
    for i in 0..words {
        prev = facts.get_or_create_after(1, WORD_BYTES * i, prev);
    }
}
