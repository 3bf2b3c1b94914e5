// None, over, or the list.
ghost use Rattle.std.specs.Prelude.{◌≡◌, ◌≤◌, Ok, length};
ghost use Rattle.limits.specs.Limits.{types_room};
ghost use Rattle.facts.specs.Sound.{Sound};
ghost use Rattle.paths.specs.Lent.{facts_of};
ghost use Rattle.closing.specs.Answer.{verdict_of, answer_of, types_after};

use crate::{Closing, Granted};
use budget::fits_type_budget;
use limits::WORD_BYTES;
use list::is_childless;
use paths::Facts;
use type_walk::write_words;

// The answer for the facts of a sound table; the list's codes are written where it is granted.
pub fn answer(facts: &Facts, types: &mut [u16]) -> Closing
    requires sound { Sound facts.now.table.now facts.now.used facts.now.records }
    requires types_room_in_bounds { types_room ≤ length types.old }
    ensures result_value { verdict_of (Ok result) ≡ answer_of (facts_of facts.now) }
    ensures types_after { types.new ≡ types_after (facts_of facts.now) types.old }
{
    if is_childless(facts, 1) {
        return Closing::Nothing;
    }
    let Some(root) = fits_type_budget(facts) else {
        return Closing::Over;
    };
    let entries = root.last_word + 1;
    write_words(facts, 1, 0, entries, types, 0);
    Closing::Granted(Granted {
        entries,
        left: root.left,
        length: WORD_BYTES * entries,
    })
}
