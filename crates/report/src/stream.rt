// A sheet's way in and its report's way out, for the programs on sheets: reading until the end of
// the input, and printing the report.
ghost use Rattle.std.specs.Prelude.{IfOk, OnOk, length};
ghost use Rattle.std.specs.Io.KnownBytes.{Appends};
ghost use Rattle.report.specs.Report.{report};
ghost use Rattle.report.specs.Reading.{IsRead};

use std::io::{self, Read, Write};

// Reads until `buf` is full or the input ends, and answers how many bytes it read. If a read fails,
// so does this, so that a part of a sheet is never taken for a sheet. A loop of its own: the
// library's `read_exact` fails where the input ends before that, and `read_to_end` wants a heap.
pub fn read_full<R: Read>(input: &mut R, buf: &mut [u8]) -> io::Result<usize>
    ensures { IfOk result (λ n. IsRead (R.remaining input.old) (length buf.old) n buf.new) }
{
    let mut done: usize = 0;
    while done < buf.len() {
        let more = input.read(&mut buf[done..])?;
        if more == 0 {
            return Ok(done);
        }
        done += more;
    }
    Ok(done)
}

// Prints the report on a sheet.
pub fn print_report<W: Write>(output: &mut W, sheet: &[u8]) -> io::Result<()>
    ensures { OnOk result
        (Appends (W.contents output.old) (W.contents output.new) (report sheet.now)) }
{
    output.write_all(crate::report(sheet).as_bytes())
}
