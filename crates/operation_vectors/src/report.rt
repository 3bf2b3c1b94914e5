// What is written.
ghost use Rattle.std.specs.Prelude.{◌≤◌};

use limits::RECORD_WIDTH;
use paths::Facts;
use std::io;

// How many records are used, and whether the table is sound.
pub fn tell(rt: &impl Print, facts: &Facts) -> io::Result<()> {
    let sound = match facts::record_count(facts.table.len()) {
        Ok(records) => facts::is_sound(facts.table, records, facts.used),
        Err(_) => false,
    };
    print!(rt;
        "; used {}{}",
        facts.used,
        if sound { " sound\n" } else { " unsound\n" }
    )
}

fn put_record(rt: &impl Print, facts: &Facts, r: u32) -> io::Result<()>
    requires { (1 ≤ r) × (r ≤ facts.now.used) }
{
    for f in 0..RECORD_WIDTH {
        print!(rt; " {}", facts.field(r, f))?;
    }
    println!(rt; "")
}

pub fn put_records(rt: &impl Print, facts: &Facts) -> io::Result<()> {
    for r in 1..=facts.used {
        put_record(rt, facts, r)?;
    }
    Ok(())
}
