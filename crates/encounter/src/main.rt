// The program `encounter`: reads an encounter sheet from standard input and prints the report on it
// (docs/SHEET.md). What it prints is `report::report` of what it read; it reads one byte more than
// the largest sheet has, so that a longer input is seen to be too long.
#![tactic(auto)]

ghost use Rattle.std.specs.Prelude.{◌≡◌, ◌+◌, IfSome, OnOk, IsErrOf, take};
ghost use Rattle.std.specs.Io.KnownBytes.{Appends};
ghost use Rattle.std.specs.declared.io.Error.{Error};
ghost use Rattle.sheet_record.specs.Word.{max_bytes};
ghost use Rattle.report.specs.Report.{report};

use report::stream::{print_report, read_full};
use std::io::{self, Read, Write};
use thiserror::Error;

// Room for the largest sheet and one byte more.
const ROOM: usize = sheet_record::word::MAX_BYTES + 1;

// Which of the program's streams failed, and how.
#[derive(Debug, Drop, Error)]
enum Failure {
    #[error("standard input: {0}")]
    Input(io::Error),
    #[error("standard output: {0}")]
    Output(io::Error),
}

// The program, on any input and output: all that it prints is the report on what it read, and
// nothing where a read failed.
fn answer<R: Read, W: Write>(input: &mut R, output: &mut W) -> Result<(), Failure>
    ensures printed { OnOk result (IfSome (R.remaining input.old)
        (λ s. Appends (W.contents output.old) (W.contents output.new) (report (take (max_bytes + 1) s)))) }
    ensures unread { (e : Error) → IsErrOf result (Failure.Input e) → output.new ≡ output.old }
{
    let mut sheet = [0u8; ROOM];
    let n = read_full(input, &mut sheet).map_err(Failure::Input)?;
    print_report(output, &sheet[..n]).map_err(Failure::Output)
}

fn main(rt: HostRuntime) -> anyhow::Result<()> {
    answer(&mut rt.stdin(), &mut rt.stdout())?;
    Ok(())
}
