// Where the walk of a chain begins.
ghost use Rattle.std.specs.Prelude.{◌≡◌, ◌+◌, ◌-◌, ◌^◌, ◌<◌, ◌≤◌, ◌≢◌};
ghost use Rattle.facts.specs.Table.{child_of, next_of};
ghost use Rattle.facts.specs.Links.{Kid};
ghost use Rattle.paths.specs.Place.{Before};

use crate::Links;
use limits::fields::{KEY, PARENT};
use std::num::wrapping_sub_u32;

// In a table of so few records a walk is short, however its chain jumps about.
const FEW_RECORDS: u32 = 32;

// A chain is taken for one that jumps about by its first so many children, and one more for so many records: looking at
// all of them must be worth it.
const FEW_CHILDREN: u32 = 8;

const RECORDS_FOR_A_CHILD: u32 = 64;

// A child, 0 for none, and the lowest key of one that is nearer.
#[derive(Clone, Copy)]
struct Nearest {
    child: u32,
    low: u32,
}

// By how many the children that don't stand right behind the one before them are ahead of those that do, with one more
// child.
fn ahead_with(ahead: u32, prev: u32, next: u32) -> u32
    requires { ahead < 2 ^ 32 - 1 }
    ensures { result ≤ ahead + 1 }
{
    if next as usize != prev as usize + 1 {
        return ahead + 1;
    }
    ahead.saturating_sub(1)
}

impl Links<'_> {
    // The child of parent behind prev, the first one for 0.
    pub(crate) fn behind(&self, parent: u32, prev: u32) -> u32
        requires le_parent { (1 ≤ parent) × (parent ≤ self.now.used) }
        requires kid { (prev ≢ 0) → Kid self.now.table.now self.now.used parent prev }
        ensures { (prev ≡ 0 → result ≡ child_of self.now.table.now parent)
            × ((prev ≢ 0) → result ≡ next_of self.now.table.now prev) }
    {
        if prev == 0 {
            return self.child(parent);
        }
        self.next(prev)
    }

    // The record r, if it is a child of parent and its key is neither too low nor as high as the one that is looked
    // for; the one before else. One test asks both of the key: in no order a test of one end would come out either way.
    fn nearer(&self, parent: u32, key: u32, near: Nearest, r: u32) -> Nearest
        requires lt_r { (1 < r) × (r ≤ self.now.used) }
        requires before { Before self.now.table.now self.now.used parent key near.child × (near.low ≤ key) }
        ensures { Before self.now.table.now self.now.used parent key result.child × (result.low ≤ key) }
    {
        let k = self.field(r, KEY);
        if key - near.low <= wrapping_sub_u32(k, near.low) {
            return near;
        }
        if self.field(r, PARENT) != parent {
            return near;
        }
        Nearest {
            child: r,
            low: k + 1,
        }
    }

    // The child of parent with the highest key below that one, or prev: all records are looked at, the last one first,
    // so that no load waits for another.
    fn nearest(&self, parent: u32, key: u32, prev: u32) -> u32
        requires { Before self.now.table.now self.now.used parent key prev }
        ensures { Before self.now.table.now self.now.used parent key result }
    {
        let mut near = Nearest {
            child: prev,
            low: 0,
        };
        for r in (2..=self.used).rev() {
            near = self.nearer(parent, key, near, r);
        }
        near.child
    }

    // A child of parent with a lower key, or 0, behind which a walk that knows of none begins: in a large table whose
    // chain jumps about the nearest one, else one that the first children led to.
    pub(crate) fn start(&self, parent: u32, key: u32) -> u32
        requires { (1 ≤ parent) × (parent ≤ self.now.used) }
        ensures { Before self.now.table.now self.now.used parent key result }
    {
        if self.used <= FEW_RECORDS {
            return 0;
        }
        let few = FEW_CHILDREN + self.used / RECORDS_FOR_A_CHILD;
        let mut prev: u32 = 0;
        let mut ahead: u32 = 0;
        for passed in 0..few {
            let next = self.behind(parent, prev);
            if next == 0 {
                return prev;
            }
            if key <= self.field(next, KEY) {
                return prev;
            }
            ahead = ahead_with(ahead, prev, next);
            if ahead == 0 {
                return prev;
            }
            prev = next;
        }
        self.nearest(parent, key, prev)
    }
}
