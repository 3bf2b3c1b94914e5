// The fields of one record.
ghost use Rattle.std.specs.Prelude.{◌≡◌, ◌<◌, ◌≤◌, ◌==◌};
ghost use Rattle.facts.specs.Table.{fld, child_of, next_of};
ghost use Rattle.facts.specs.State.{node_of};

use crate::{Facts, FactsMut};
use facts::{field, set_field};
use limits::fields::{
    BLOCKED, CHILD, CONFIDENCE, COUNT, KEY, KIND, NAME, NEXT, NOT_BOOL, PARENT, SEEN,
};

impl Facts<'_> {
    ghost use Rattle.limits.specs.Limits.{record_width};
    ghost use Rattle.paths.specs.Lent.{facts_of};

    // Field f of record r.
    pub fn field(&self, r: u32, f: usize) -> u32
        requires { (1 ≤ r) × (r ≤ self.now.used) × (f < record_width) }
        ensures { result ≡ fld self.now.table.now r f }
    {
        field(self.table, r, f)
    }

    // The first child of record r, 0 for none.
    pub fn child(&self, r: u32) -> u32
        requires { (1 ≤ r) × (r ≤ self.now.used) }
        ensures { result ≡ child_of self.now.table.now r }
    {
        self.field(r, CHILD)
    }

    // The next child of its parent, 0 for none.
    pub fn next(&self, r: u32) -> u32
        requires { (1 ≤ r) × (r ≤ self.now.used) }
        ensures { result ≡ next_of self.now.table.now r }
    {
        self.field(r, NEXT)
    }

    pub fn key(&self, r: u32) -> u32
        requires { (1 ≤ r) × (r ≤ self.now.used) }
        ensures { result ≡ (node_of (facts_of self.now) r).key }
    {
        self.field(r, KEY)
    }

    pub fn parent(&self, r: u32) -> u32
        requires { (1 ≤ r) × (r ≤ self.now.used) }
        ensures { result ≡ (node_of (facts_of self.now) r).parent }
    {
        self.field(r, PARENT)
    }

    pub fn kind(&self, r: u32) -> u32
        requires { (1 ≤ r) × (r ≤ self.now.used) }
        ensures { result ≡ (node_of (facts_of self.now) r).kind }
    {
        self.field(r, KIND)
    }

    pub fn count(&self, r: u32) -> u32
        requires { (1 ≤ r) × (r ≤ self.now.used) }
        ensures { result ≡ (node_of (facts_of self.now) r).count }
    {
        self.field(r, COUNT)
    }

    pub fn name(&self, r: u32) -> u32
        requires { (1 ≤ r) × (r ≤ self.now.used) }
        ensures { result ≡ (node_of (facts_of self.now) r).name }
    {
        self.field(r, NAME)
    }

    pub fn confidence(&self, r: u32) -> u32
        requires { (1 ≤ r) × (r ≤ self.now.used) }
        ensures { result ≡ (node_of (facts_of self.now) r).confidence }
    {
        self.field(r, CONFIDENCE)
    }

    pub fn is_seen(&self, r: u32) -> bool
        requires { (1 ≤ r) × (r ≤ self.now.used) }
        ensures { result ≡ ((node_of (facts_of self.now) r).seen == 1) }
    {
        self.field(r, SEEN) == 1
    }

    pub fn is_not_bool(&self, r: u32) -> bool
        requires { (1 ≤ r) × (r ≤ self.now.used) }
        ensures { result ≡ ((node_of (facts_of self.now) r).not_bool == 1) }
    {
        self.field(r, NOT_BOOL) == 1
    }

    pub fn blocked(&self, r: u32) -> u32
        requires { (1 ≤ r) × (r ≤ self.now.used) }
        ensures { result ≡ (node_of (facts_of self.now) r).blocked }
    {
        self.field(r, BLOCKED)
    }
}

impl FactsMut<'_> {
    ghost use Rattle.limits.specs.Limits.{record_width};
    ghost use Rattle.limits.specs.Fields as field;
    ghost use Rattle.paths.specs.Update.{update};
    ghost use Rattle.paths.specs.Lent.{facts_in, Becomes};

    // Stores v at field f, which is no link, of record r.
    pub fn store(&mut self, r: u32, f: usize, v: u32)
        requires { (1 ≤ r) × (r ≤ self.old.used) × (field.seen ≤ f) × (f < record_width) }
        ensures { Becomes self.old self.new (update (facts_in self.old) r f v) }
    {
        set_field(self.table, r, f, v);
    }
}
