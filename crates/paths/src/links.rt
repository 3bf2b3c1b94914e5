// The links of a lent table.
ghost use Rattle.std.specs.Prelude.{◌≡◌};
ghost use Rattle.facts.specs.Table.{parent_of};
ghost use Rattle.facts.specs.Linked.{Linked};

use facts::field;
use limits::fields::{CHILD, NEXT};

// The first `used` records stand in chains below the root, the first of them. Nothing is asked of what stands behind
// them.
#[derive(Clone, Copy)]
pub struct Links<'a> {
    pub table: &'a [u32],
    pub used: u32,
    ghost linked: { Linked table.now used },
    ghost root: { parent_of table.now 1 ≡ 0 },
}

impl Links<'_> {
    ghost use Rattle.std.specs.Prelude.{◌<◌, ◌≤◌};
    ghost use Rattle.limits.specs.Limits.{record_width};
    ghost use Rattle.facts.specs.Table.{fld, child_of, next_of};

    // Field f of record r.
    pub(crate) fn field(&self, r: u32, f: usize) -> u32
        requires { (1 ≤ r) × (r ≤ self.now.used) × (f < record_width) }
        ensures { result ≡ fld self.now.table.now r f }
    {
        field(self.table, r, f)
    }

    // The first child of record r, 0 for none.
    pub(crate) fn child(&self, r: u32) -> u32
        requires { (1 ≤ r) × (r ≤ self.now.used) }
        ensures { result ≡ child_of self.now.table.now r }
    {
        self.field(r, CHILD)
    }

    // The next child of its parent, 0 for none.
    pub(crate) fn next(&self, r: u32) -> u32
        requires { (1 ≤ r) × (r ≤ self.now.used) }
        ensures { result ≡ next_of self.now.table.now r }
    {
        self.field(r, NEXT)
    }
}
