// Words that have one code.
ghost use Rattle.std.specs.Prelude.{◌≡◌, ◌+◌, ◌≤◌, length, replicate};
ghost use Rattle.std.proofs.lemmas.List.Edits.{sets};
ghost use Rattle.paths.specs.Lent.{facts_of};
ghost use Rattle.facts.specs.Sound.{Sound};
ghost use Rattle.type_walk.specs.Plan.{word_code, leaf_code};

use crate::ahead::WORD_CODE;
use limits::codes::NO_NAME;
use paths::Facts;

// The one code of a word at whose key the record c stands: uint256 where it is not seen; the name of a fact with no
// child and no kind, or uint256 without one.
#[tactic(auto, unfolding(crate::specs::Plan::leaf_code))]
pub fn leaf_code(facts: &Facts, c: u32) -> Option<u32>
    requires sound { Sound facts.now.table.now facts.now.used facts.now.records }
    requires le_c { (1 ≤ c) × (c ≤ facts.now.used) }
    ensures { result ≡ leaf_code (facts_of facts.now) c }
{
    if !facts.is_seen(c) {
        return Some(WORD_CODE);
    }
    if (facts.child(c) != 0) | (facts.kind(c) != 0) {
        return None;
    }
    let name = facts.name(c);
    let code = if name == NO_NAME { WORD_CODE } else { name };
    Some(code)
}

// Writes uint256 for so many words, and answers the index behind them.
pub fn write_gap(types: &mut [u16], to: usize, words: u32) -> usize
    requires { to + words ≤ length types.old }
    ensures { (types.new ≡ sets types.old to (replicate words word_code)) × (result ≡ to + words) }
{
    let behind = to + words as usize;
    types[to..behind].fill(WORD_CODE as u16);
    behind
}
