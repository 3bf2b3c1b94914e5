// The facts of a lent table: `Facts` reads them, `FactsMut` changes them too.
ghost use Rattle.std.specs.Prelude.{◌<◌, ◌^◌};
ghost use Rattle.paths.specs.Shape.{Shaped};

use crate::Links;

// The table holds the facts in its first `used` records, of `records` in all. `fits` says what the type of `records`
// does: where the facts are borrowed, proofs read it here.
#[derive(Clone, Copy)]
pub struct Facts<'a> {
    pub table: &'a [u32],
    pub records: u32,
    pub used: u32,
    ghost shaped: { Shaped table.now used records },
    ghost fits: { records < 2 ^ 32 },
}

// The same of a table that may be written.
#[derive(Drop)]
pub struct FactsMut<'a> {
    pub table: &'a mut [u32],
    pub records: u32,
    pub used: u32,
    ghost shaped: { Shaped table.now used records },
    ghost fits: { records < 2 ^ 32 },
}

impl<'a> Facts<'a> {
    ghost use Rattle.std.specs.Prelude.{◌≡◌};

    pub fn links(&self) -> Links<'a>
        ensures { (result.table.now ≡ self.now.table.now) × (result.used ≡ self.now.used) }
    {
        let used = self.used;
        Links {
            table: self.table,
            used,
        }
    }
}

impl FactsMut<'_> {
    ghost use Rattle.std.specs.Prelude.{◌≡◌};

    pub fn links(&self) -> Links<'_>
        ensures { (result.table.now ≡ self.now.table.now) × (result.used ≡ self.now.used) }
    {
        self.read().links()
    }

    // The facts as they stand, to be read.
    pub fn read(&self) -> Facts<'_>
        ensures { (result.table.now ≡ self.now.table.now) × (result.records ≡ self.now.records)
            × (result.used ≡ self.now.used) }
    {
        Facts {
            table: self.table,
            records: self.records,
            used: self.used,
        }
    }
}
