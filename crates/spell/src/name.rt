// The text of a name.
ghost use Rattle.std.specs.Prelude.{◌≡◌, true, ◌+◌, ◌≤◌, length};
ghost use Rattle.names.specs.Decimal.{decimal};
ghost use Rattle.names.specs.Elementary.{is_name, of_code};
ghost use Rattle.names.specs.Text.{name_text};
ghost use Rattle.spell.specs.Writer.{Puts, SameSlice};

use crate::Writer;
use itoa::Buffer;
use limits::codes::{ADDRESS, BOOL, BYTES, FIXED_BYTES, INT, STRING, UINT};

#[tactic(auto, using(crate::proofs::Decimals::decimals))]
fn decimal_length(n: u32) -> usize
    ensures { (result ≡ length (decimal n)) × (result ≤ 10) }
{
    Buffer::new().format(n).len()
}

// How many bytes the text of a name has.
#[tactic(auto, using(crate::proofs::Spellings::spellings), unfolding(names::specs::Elementary::of_code, names::specs::Text::name_text))]
pub fn name_length(code: u32) -> usize
    requires { is_name code ≡ true }
    ensures { (result ≡ length (name_text (of_code code))) × (result ≤ 8) }
{
    match code {
        BOOL => 4,
        ADDRESS => 7,
        BYTES => 5,
        STRING => 6,
        ..INT => 4 + decimal_length(code - UINT),
        INT..FIXED_BYTES => 3 + decimal_length(code - INT),
        FIXED_BYTES.. => 5 + decimal_length(code - FIXED_BYTES),
    }
}

impl Writer<'_> {
    // The text of a name.
    #[tactic(auto, using(crate::proofs::Spellings::spellings), unfolding(names::specs::Elementary::of_code, names::specs::Text::name_text))]
    pub fn put_name(&mut self, code: u32)
        requires { (is_name code ≡ true) × (self.old.to + length (name_text (of_code code)) ≤ length self.old.out.now) }
        ensures stored { Puts (name_text (of_code code)) self.old self.new }
        ensures slice { SameSlice self.old self.new }
    {
        match code {
            BOOL => self.put(b"bool"),
            ADDRESS => self.put(b"address"),
            BYTES => self.put(b"bytes"),
            STRING => self.put(b"string"),
            ..INT => self.put_numbered(b"uint", code - UINT),
            INT..FIXED_BYTES => self.put_numbered(b"int", code - INT),
            FIXED_BYTES.. => self.put_numbered(b"bytes", code - FIXED_BYTES),
        }
    }
}
