// From a sheet's bytes to the lines that the encounter program prints (document 01, 'Encounter
// sheet and its program').
#![tactic(auto)]

pub mod contacts;
pub mod stream;

ghost use Rattle.std.specs.Prelude.{◌≡◌};
ghost use Rattle.text.specs.Text.{appended};
ghost use Rattle.lines.specs.Lines.{with_refusal};
ghost use Rattle.report.specs.Report as Spec;

use arrayvec::ArrayVec;
use elementary::error::Refusal;
use manoeuvre::constraints::ManoeuvreConstraints;
use motion::capacity::MAX_CONTACTS;
use motion::units::Distance;
use ruled_search::RuledManoeuvre;
use sheet::limits::{constraints_of, id_at, policy_of};
use sheet::values::scaled;
use sheet_record::{Header, Row};
use text::Text;

// The ruled search on a sheet.
fn search_answer(
    h: Header,
    rows: &ArrayVec<Row, MAX_CONTACTS>,
    c: ManoeuvreConstraints,
) -> Result<RuledManoeuvre, Refusal>
    ensures { result ≡ Spec.search_answer h rows.now.items c }
{
    let around = sheet::values::circumstances_of(h);
    let t = sheet::values::traffic_of(rows);
    let desired = Distance(scaled(h.desired));
    ruled_search::ruled_search(around, &t, desired, c)
}

// The lines on a sheet, up to the first answer that is a refusal.
#[tactic(auto, using(text::proofs::Appending::appended_twice), unfolding(crate::specs::Report::report, crate::specs::Report::lines_of, sheet::specs::Values::circumstances_of))]
fn put_lines(t: &mut Text, bytes: &[u8]) -> Result<(), Refusal>
    ensures { with_refusal t.new result ≡ appended t.old (Spec.report bytes.now) }
{
    sheet::check_sheet(bytes)?;
    let h = sheet_record::header_of(bytes);
    let rows = sheet_record::rows_of(bytes);
    let policy = policy_of(h)?;
    let c = constraints_of(h)?;
    crate::contacts::put_rows(t, sheet::values::circumstances_of(h), policy, &rows);
    let m = search_answer(h, &rows, c)?;
    lines::alter_line(t, m, id_at(&rows, m.limiting));
    Ok(())
}

// What the encounter program prints for a sheet.
#[tactic(auto, using(crate::proofs::Whole::printed))]
pub fn report(bytes: &[u8]) -> Text
    ensures { result ≡ Spec.report bytes.now }
{
    let mut t = Text::blank();
    if let Err(why) = put_lines(&mut t, bytes) {
        lines::refused_line(&mut t, why);
    }
    t
}
