// Text that a program prints: bytes up to a fixed room, to which pieces are appended. What does not
// fit is cut, so that appending takes every piece; whoever shows that a text fits has it whole.
#![tactic(auto)]

pub mod decimal;
pub mod number;

ghost use Rattle.std.specs.Prelude.{◌≡◌, ◌≤◌, [], ◌∷◌, length};
ghost use Rattle.text.specs.Text.{room, appended};
ghost use Rattle.std.specs.Prelude.{ℕ, List};
ghost use mathlib.Core.List.{flat_map};
ghost use Rattle.text.specs.Decimal.{last_digit, decimal_of, three_decimals};

use std::marker::Model;

// Enough for the lines on 57 contacts and the answer to them.
pub const ROOM: usize = 8192;

// The first `len` bytes, and zeros after them, so that a text is made of what it says alone. A
// contract sees what it says. No `ArrayVec`, which can't be copied.
#[derive(Clone, Copy)]
pub struct Text {
    bytes: [u8; ROOM],
    len: usize,
}

impl Model for Text {
    ghost use Rattle.std.specs.Prelude.{List, ℕ};

    ghost Value = { List ℕ };

    ghost use Rattle.text.specs.Held.{said, IsText, text_of, made_again};

    ghost view = { said };

    ghost invariant = { IsText };

    ghost inverse = { text_of };

    ghost inverse_ok = { made_again };
}

// How items are put at the end of a text.
pub trait Pieces<T> {
    ghost use Rattle.std.specs.Prelude.{List, ℕ};

    // The bytes of an item.
    ghost piece: { Self → T → List ℕ };

    fn put(&self, t: &mut Text, item: T)
        ensures { t.new ≡ appended t.old (piece self.now item) };
}

// The last decimal digit of n.
fn last_digit(n: u64) -> u8
    ensures { result ≡ last_digit n }
{
    b'0' + (n % 10) as u8
}

impl Text {
    // No text yet.
    pub fn blank() -> Text
        ensures { result ≡ [] }
    {
        Text {
            bytes: [0; ROOM],
            len: 0,
        }
    }

    // Its bytes.
    pub fn as_bytes(&self) -> &[u8]
        ensures value { result.now ≡ self.now }
        ensures fits { length result.now ≤ room }
    {
        &self.bytes[..self.len]
    }

    // The bytes of s at the end. The words are byte strings, whose bytes document 01 fixes, and no
    // `Display`: `write!` says what it wrote only where it answers `Ok`, and nowhere that it does,
    // while a text takes every piece.
    pub fn put(&mut self, s: &[u8])
        ensures { self.new ≡ appended self.old s.now }
    {
        let n = (ROOM - self.len).min(s.len());
        let end = self.len + n;
        self.bytes[self.len..end].copy_from_slice(&s[..n]);
        self.len = end;
    }

    // One byte at the end.
    pub fn byte(&mut self, b: u8)
        ensures { self.new ≡ appended self.old (b ∷ []) }
    {
        self.put(&[b]);
    }

    // A whole number at the end, in decimal.
    pub fn number(&mut self, n: u64)
        ensures { self.new ≡ appended self.old (decimal_of n) }
    {
        let mut digits = [0u8; 20];
        let k = io::decimal(n, &mut digits);
        self.put(&digits[..k]);
    }

    // So many thousandths at the end, with three decimals.
    pub fn thousandths(&mut self, n: u64)
        ensures { self.new ≡ appended self.old (three_decimals n) }
    {
        self.number(n / 1000);
        self.put(&[b'.', last_digit(n / 100), last_digit(n / 10), last_digit(n)]);
    }

    // The bytes of each item, in turn.
    pub fn each<T: Copy, P: Pieces<T>>(&mut self, items: &[T], pieces: &P)
        ensures { self.new ≡ appended self.old (flat_map (P.piece pieces.now) items.now) }
    {
        // It fits in its room, so that where there is no item nothing is cut of it.
        let _ = self.as_bytes();
        for x in items {
            pieces.put(self, *x);
        }
    }
}
