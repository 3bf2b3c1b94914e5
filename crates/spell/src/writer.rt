// Bytes stored one behind the other.
ghost use Rattle.std.specs.Prelude.{◌≡◌, ◌++◌, ◌+◌, ◌≤◌, length};
ghost use Rattle.names.specs.Decimal.{decimal};

use itoa::Buffer;

// A lent slice that is written from the left, and how many of its bytes are written.
#[derive(Drop)]
pub struct Writer<'a> {
    pub out: &'a mut [u8],
    pub to: usize,
    ghost inside: { to ≤ length out.now },
}

impl<'a> Writer<'a> {
    ghost use Rattle.spell.specs.Writer.{Puts, SameSlice};

    // Nothing is written yet.
    pub fn new(out: &'a mut [u8]) -> Writer<'a>
        ensures slice { result.out.ghost_name ≡ out.entry.ghost_name }
        ensures lent { result.out.now ≡ out.old }
        ensures start { result.to ≡ 0 }
    {
        Writer { out, to: 0 }
    }

    // Stores the bytes behind those that are written.
    #[inline]
    #[tactic(auto, using(crate::proofs::Stores::stored_mid))]
    pub fn put(&mut self, bytes: &[u8])
        requires { self.old.to + length bytes.now ≤ length self.old.out.now }
        ensures stored { Puts bytes.now self.old self.new }
        ensures slice { SameSlice self.old self.new }
    {
        let end = self.to + bytes.len();
        self.out[self.to..end].copy_from_slice(bytes);
        self.to = end;
    }

    // A number in decimal.
    #[inline]
    #[tactic(auto, using(crate::proofs::Decimals::written_decimal))]
    pub fn put_decimal(&mut self, n: u32)
        requires { self.old.to + length (decimal n) ≤ length self.old.out.now }
        ensures stored { Puts (decimal n) self.old self.new }
        ensures slice { SameSlice self.old self.new }
    {
        self.put(Buffer::new().format(n).as_bytes());
    }

    // Words, and a number behind them.
    #[inline]
    #[tactic(auto, using(crate::proofs::Stores::runs))]
    pub fn put_numbered(&mut self, words: &[u8], n: u32)
        requires { self.old.to + length words.now + length (decimal n) ≤ length self.old.out.now }
        ensures stored { Puts (words.now ++ decimal n) self.old self.new }
        ensures slice { SameSlice self.old self.new }
    {
        self.put(words);
        self.put_decimal(n);
    }
}
