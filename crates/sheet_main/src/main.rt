// Replays reports. Each line of standard input is a sheet, two hexadecimal digits for each byte;
// for each the program writes the report on it and an empty line. The file `stdout` has what the
// oracle's own reading and printing gives. How both are made is said in docs/COMPARISON.md.
#![tactic(auto)]

ghost use Rattle.std.specs.Prelude.{◌≤◌, ◌++◌, ◌∷◌, [], OnOk};
ghost use Rattle.std.specs.Io.KnownBytes.{Appends};
ghost use Rattle.report.specs.Report.{report};

use report::stream::{print_report, read_full};
use std::io::{self, Write};

// Room for a sheet that is too long.
const ROOM: usize = 4200;

// What a digit is worth. By hand: the toolchain's `hex` refuses a line with what is no digit, on
// which this program printed a report before too.
fn digit(b: u8) -> u8
    ensures { result ≤ 15 }
{
    if b >= b'a' {
        return (b - b'a' + 10) % 16;
    }
    b % 16
}

// Prints the report on a sheet and an empty line.
fn print_spaced<W: Write>(output: &mut W, sheet: &[u8]) -> io::Result<()>
    ensures { OnOk result
        (Appends (W.contents output.old) (W.contents output.new) (report sheet.now ++ 10 ∷ [])) }
{
    print_report(output, sheet)?;
    output.write_all(b"\n")
}

// Prints the report on the sheet that a line of digits spells.
fn print_line<W: Write>(output: &mut W, line: &[u8]) -> io::Result<()> {
    let mut sheet = [0u8; ROOM];
    let (pairs, _) = line.as_chunks::<2>();
    for (byte, pair) in sheet.iter_mut().zip(pairs) {
        *byte = digit(pair[0]) * 16 + digit(pair[1]);
    }
    print_spaced(output, &sheet[..pairs.len().min(ROOM)])
}

// The sheets of the input, a line each, one after the other.
fn replay<W: Write>(output: &mut W, input: &[u8]) -> io::Result<()> {
    for line in input.split_inclusive(|b| *b == b'\n') {
        print_line(output, line.strip_suffix(b"\n").unwrap_or(line))?;
    }
    Ok(())
}

fn main(rt: HostRuntime) -> io::Result<()> {
    let mut input = [0u8; 262144];
    let n = read_full(&mut rt.stdin(), &mut input)?;
    replay(&mut rt.stdout(), &input[..n])
}
