// The checks of an encounter sheet, in document 01's order: layout (15), count (14), codes (16),
// then the values in the sheet's order.
#![tactic(auto)]

pub mod limits;
pub mod values;

ghost use Rattle.std.specs.Prelude.{◌≡◌};
ghost use Rattle.motion.specs.Check as Check;
ghost use Rattle.sheet.specs.Sheet as Spec;

use crate::values::scaled;
use clearance::traffic::Entry;
use elementary::error::Refusal;
use motion::units::Distance;
use sheet_record::{Header, Row};
use situation::check;

// The categories of the contacts (number 16).
fn check_categories(rows: &[Row]) -> Result<(), Refusal>
    ensures { result ≡ Check.checked (Spec.category_checks rows.now) }
{
    for row in rows {
        motion::argument::ensure(row.category <= 7, Refusal::UnknownCode)?;
    }
    Ok(())
}

// Own category, the visibility, the categories of the contacts.
fn check_codes(h: Header, rows: &[Row]) -> Result<(), Refusal>
    ensures { result ≡ Check.checked (Spec.code_checks h rows.now) }
{
    motion::argument::ensure(h.category <= 7, Refusal::UnknownCode)?;
    motion::argument::ensure(h.visibility <= 1, Refusal::UnknownCode)?;
    check_categories(rows)
}

// Own craft, the desired distance, the least and the most alteration, the limits, the wind, and the
// contacts one by one.
fn check_values(h: Header, t: &[Entry]) -> Result<(), Refusal>
    ensures { result ≡ Check.checked (Spec.value_checks h t.now) }
{
    let own = crate::values::own_of(h);
    let wind = crate::values::wind_from(h);
    motion::argument::check_vessel(own.motion)?;
    motion::argument::check_distance(Distance(scaled(h.desired)))?;
    crate::limits::constraints_of(h)?;
    crate::limits::policy_of(h)?;
    check::check_optional(wind)?;
    clearance::traffic::check_contacts(t)
}

// Whether a sheet is accepted, and the refusal if it is not.
pub fn check_sheet(bytes: &[u8]) -> Result<(), Refusal>
    ensures { result ≡ Spec.sheet_verdict bytes.now }
{
    sheet_record::check_layout(bytes)?;
    let h = sheet_record::header_of(bytes);
    let rows = sheet_record::rows_of(bytes);
    check_codes(h, &rows)?;
    check_values(h, &crate::values::traffic_of(&rows))
}
