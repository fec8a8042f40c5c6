// The bytes that the program prints, in a buffer of its own.
use std::marker::Model;

// The most bytes that are printed: 26 of the header, 235 of the result line, 16,393 of the poly line.
pub const MOST_PRINTED: usize = 16654;

// Bytes one after another, at most as many as are ever printed. A contract sees them as a list.
#[derive(Drop)]
pub struct Printed {
    bytes: [u8; MOST_PRINTED],
    count: usize,
}

impl Model for Printed {
    ghost use Rattle.std.specs.Prelude.{ℕ, List, ◌≤◌, take};
    ghost use Rattle.printing.specs.declared.buffer.TheConstants.{MOST_PRINTED};

    ghost Value = { List ℕ };

    ghost view = { λ s. take s.count s.bytes };

    ghost invariant = { λ s. s.count ≤ MOST_PRINTED };
}

impl Printed {
    ghost use Rattle.std.specs.Prelude.{◌≡◌, [], ◌∷◌, ◌++◌, ◌+◌, ◌<◌, ◌≤◌, length};

    // No bytes.
    pub(crate) fn new() -> Printed
        ensures { result ≡ [] }
    {
        Printed {
            bytes: [0; MOST_PRINTED],
            count: 0,
        }
    }

    // The bytes.
    pub fn as_bytes(&self) -> &[u8]
        ensures put { result.now ≡ self.now }
        ensures within { length result.now ≤ MOST_PRINTED }
    {
        &self.bytes[..self.count]
    }

    // One byte more.
    pub(crate) fn push(&mut self, byte: u8)
        requires { length self.old < MOST_PRINTED }
        ensures { self.new ≡ self.old ++ byte ∷ [] }
    {
        self.bytes[self.count] = byte;
        self.count += 1;
    }

    // A word more.
    pub(crate) fn push_word(&mut self, word: &[u8])
        requires { length self.old + length word.now ≤ MOST_PRINTED }
        ensures { self.new ≡ self.old ++ word.now }
    {
        let end = self.count + word.len();
        self.bytes[self.count..end].copy_from_slice(word);
        self.count = end;
    }
}
