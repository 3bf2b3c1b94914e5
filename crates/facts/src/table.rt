// One number of one record.
ghost use Rattle.std.specs.Prelude.{◌≡◌};
ghost use Rattle.facts.specs.Table.{fld};
ghost use Rattle.facts.specs.Access.{put, Has};

use limits::RECORD_WIDTH;

// Field f of record r.
#[tactic(auto, unfolding(crate::specs::Table::fld))]
pub fn field(table: &[u32], r: u32, f: usize) -> u32
    requires { Has table.now r f }
    ensures { result ≡ fld table.now r f }
{
    table[(r as usize - 1) * RECORD_WIDTH + f]
}

// Stores v at field f of record r.
#[tactic(auto, unfolding(crate::specs::Access::put))]
pub fn set_field(table: &mut [u32], r: u32, f: usize, v: u32)
    requires { Has table.old r f }
    ensures { table.new ≡ put table.old r f v }
{
    table[(r as usize - 1) * RECORD_WIDTH + f] = v;
}
