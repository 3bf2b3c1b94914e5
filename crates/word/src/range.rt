// The bound of a comparison before an empty revert.
ghost use Rattle.std.specs.Prelude.{◌≡◌};
ghost use Rattle.word.specs.Value.{value_of};
ghost use Rattle.word.specs.Range.{is_range_bound};

use crate::U256;
use crate::sum::keep;
use limits::RANGE_BOUND_MAX;

// Does the bound name a range? The comparison is value < bound if less_than, else value > bound.
#[tactic(auto, unfolding(crate::specs::Range::is_range_bound, crate::specs::Kept::kept_of))]
pub fn is_range_bound(bound: U256, less_than: bool) -> bool
    ensures { result ≡ is_range_bound (value_of bound) less_than }
{
    let Some(n) = keep(bound) else {
        return false;
    };
    if less_than {
        2 <= n && n <= RANGE_BOUND_MAX + 1
    } else {
        1 <= n && n <= RANGE_BOUND_MAX
    }
}
