// Plain decimals, written into lent memory.
#![tactic(auto)]

ghost use Rattle.std.specs.Prelude.{[], ◌∷◌, ◌+◌, ◌<◌, ◌≤◌, length};
ghost use Rattle.text_decimals.specs.Writes.{Writes};
ghost use Rattle.text_decimals.specs.Model.{decimal};

// Lent memory, and where its next byte goes.
#[derive(Drop)]
pub struct Text<'a> {
    pub out: &'a mut [u8],
    pub at: usize,
}

impl<'a> Text<'a> {
    // Writes a byte.
    pub fn put(&mut self, x: u8)
        requires { self.old.at < length self.old.out.now }
        ensures { Writes self.old (x ∷ []) self.new }
    {
        self.out[self.at] = x;
        self.at += 1;
    }

    // Writes some bytes.
    pub fn write_bytes(&mut self, s: &[u8])
        requires { self.old.at + length s.now ≤ length self.old.out.now }
        ensures { Writes self.old s.now self.new }
    {
        let end = self.at + s.len();
        self.out[self.at..end].copy_from_slice(s);
        self.at = end;
    }

    // Writes n in plain decimals.
    pub fn write_decimal(&mut self, n: u32)
        requires { self.old.at + length (decimal n) ≤ length self.old.out.now }
        ensures { Writes self.old (decimal n) self.new }
    {
        if n >= 10 {
            self.write_decimal(n / 10);
        }
        self.put(b'0' + (n % 10) as u8);
    }
}
