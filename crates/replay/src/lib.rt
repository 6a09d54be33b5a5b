// Records of little-endian words, read from a program's input and answered one after the other: how
// the programs that replay the Rust's answers read (docs/COMPARISON.md).
#![tactic(auto)]

ghost use Rattle.std.specs.Prelude.{◌≡◌, ℕ, ◌%◌, ◌^◌, List, length, get_or, IfOk, OnOk, true, false};
ghost use Rattle.std.specs.Float.{binary64};
ghost use Rattle.std.specs.Float.Ieee.{of_bits};
ghost use Rattle.std.specs.Io.KnownBytes.{Appends};
ghost use Rattle.replay.specs.Record as Spec;

use arrayvec::ArrayVec;
use std::io::{self, ErrorKind, Read, Write};
use std::num::f64_from_bits_with_nan;

// How many records are answered at most: a loop is proved to end, which an input need not.
const MOST: usize = 1000000;

// How long the line of an answer is.
const LINE: usize = 17;

// What a program replays: the answer to a record.
pub trait Replayed {
    ghost use Rattle.std.specs.Prelude.{ℕ, List};

    // Whether a number is an answer to a record.
    ghost Answers: { Self → List ℕ → ℕ → Type 0 };

    fn answer(&self, bytes: &[u8]) -> u64
        ensures { Answers self.now bytes.now result };
}

// Word i of a record, 0 where there is none. Apart from `sheet_record::word::word_at`, of words of
// four bytes: one function for both would want a trait for `from_le_bytes` of `u64` and `u32`.
pub fn word(bytes: &[u8], i: usize) -> u64
    ensures { result ≡ get_or (Spec.words bytes.now) i 0 }
{
    let (words, _) = bytes.as_chunks::<8>();
    words.get(i).map_or(0, |w| u64::from_le_bytes(*w))
}

// The float whose bit pattern is word i, any NaN's included.
pub fn float(bytes: &[u8], i: usize) -> f64
    ensures { result ≡ of_bits binary64 (get_or (Spec.words bytes.now) i 0) }
{
    f64_from_bits_with_nan(word(bytes, i))
}

// The low half of a word.
pub fn low_half(word: u64) -> u32
    ensures { result ≡ word % 2 ^ 32 }
{
    (word % (1 << 32)) as u32
}

// Puts an answer's line into the output by one write, which has no buffer of its own: `writeln!`
// would write the zeros, the digits and the line's end one after the other.
fn put<W: Write>(output: &mut W, v: u64) -> io::Result<()>
    ensures { OnOk result (Appends (W.contents output.old) (W.contents output.new) (Spec.line v)) }
{
    let mut line: ArrayVec<u8, LINE> = ArrayVec::new();
    writeln!(line, "{:016x}", v)?;
    output.write_all(line.as_slice())
}

// Answers one record, which has as many bytes as there is room for, and whether there was one: what
// is less than a record ends the input.
fn next<R: Read, W: Write, F: Replayed>(
    input: &mut R,
    output: &mut W,
    room: &mut [u8],
    f: &F,
) -> io::Result<bool>
    ensures kept { length room.new ≡ length room.old }
    ensures answered { IfOk result (λ more. more ≡ true → Spec.Answered (F.Answers f.now) (length room.old)
        (R.remaining input.old, W.contents output.old) room.new (R.remaining input.new, W.contents output.new)) }
    ensures ended { IfOk result (λ more. more ≡ false → output.new ≡ output.old) }
{
    match input.read_exact(room) {
        Ok(()) => {}
        Err(error) if error.kind() == ErrorKind::UnexpectedEof => return Ok(false),
        Err(error) => return Err(error),
    }
    put(output, f.answer(room))?;
    Ok(true)
}

// Answers the records of the input one after the other, with a line for each: sixteen hexadecimal
// digits.
pub fn replay<R: Read, W: Write, F: Replayed>(
    input: &mut R,
    output: &mut W,
    room: &mut [u8],
    f: &F,
) -> io::Result<()>
    ensures { OnOk result (Spec.AreAnswered (F.Answers f.now) (length room.old)
        (R.remaining input.old, W.contents output.old) (W.contents output.new)) }
{
    for _ in 0..MOST {
        if !next(input, output, room, f)? {
            return Ok(());
        }
    }
    Ok(())
}
