// The C interface of the program: the report on a sheet, written into the caller's buffer
// (include/encounter.h).
#![tactic(auto, unfolding(crate::specs::Written::written, crate::specs::Written::count))]

ghost use Rattle.std.specs.Prelude.{◌≡◌, ◌++◌, ◌≤◌, length, drop};
ghost use Rattle.report.specs.Report.{report};
ghost use Rattle.exports_report.specs.Written.{written, count};

// Writes what `encounter` prints for a sheet to the start of `out` and answers how many bytes that
// are, at least one. If `out` has no room for all of it, writes nothing and answers 0.
#[unsafe(no_mangle)]
pub extern "C" fn encounter_report(sheet: &[u8], out: &mut [u8]) -> usize
    ensures counted { result ≡ count (report sheet.now) out.old }
    ensures filled { out.new ≡ written (report sheet.now) out.old }
{
    let t = report::report(sheet);
    let text = t.as_bytes();
    if text.len() > out.len() {
        return 0;
    }
    out[..text.len()].copy_from_slice(text);
    text.len()
}
