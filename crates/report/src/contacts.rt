// The lines on a sheet's contacts: of each what `closest_point_of_approach`, the assessment and
// `rule_of_the_road` say of it.
#![tactic(auto, unfolding(crate::specs::Contacts::contact_lines))]

ghost use Rattle.std.specs.Prelude.{◌≡◌};
ghost use Rattle.text.specs.Text.{appended};
ghost use Rattle.lines.specs.Lines.{with_refusal};
ghost use Rattle.report.specs.Contacts as Spec;

use assessment::policy::CpaPolicy;
use clearance::traffic::Entry;
use elementary::error::Refusal;
use relative_motion::approach;
use sheet_record::Row;
use situation::config::ColregsConfig;
use situation::party::Circumstances;
use text::{Pieces, Text};

// The lines on rows, on which all have own craft, the visibility, the wind and the policy in
// common.
#[derive(Drop)]
struct Lines {
    around: Circumstances,
    policy: CpaPolicy,
}

impl Lines {
    // The line on a row, unless an answer that it is made of is a refusal.
    #[tactic(auto, unfolding(crate::specs::Contacts::line_of))]
    fn contact(&self, t: &mut Text, row: Row) -> Result<(), Refusal>
        ensures { with_refusal t.new result ≡ appended t.old
            (Spec.line_of self.now.around.own self.now.around.visibility self.now.around.wind_from self.now.policy row) }
    {
        let Entry { contact, target } = sheet::values::entry_of(row);
        let own = self.around.own.motion;
        let approach = approach::closest_point_of_approach(own, contact, target.motion)?;
        let ruling = colregs::rules::rule_of_the_road(
            self.around.with(contact, target),
            ColregsConfig::STANDARD,
        )?;
        let risk = assessment::risk::risk_of(self.policy, assessment::risk::nearest(approach));
        lines::contact_line(t, row.id, approach, risk, ruling);
        Ok(())
    }
}

impl Pieces<Row> for Lines {
    ghost piece = { λ l row. Spec.line_of l.around.own l.around.visibility l.around.wind_from l.policy row };

    fn put(&self, t: &mut Text, row: Row) {
        if let Err(why) = self.contact(t, row) {
            lines::refused_line(t, why);
        }
    }
}

// The lines on all contacts, in their order.
pub(crate) fn put_rows(t: &mut Text, around: Circumstances, policy: CpaPolicy, rows: &[Row])
    ensures { t.new ≡ appended t.old (Spec.contact_lines around.own around.visibility around.wind_from policy rows.now) }
{
    t.each(rows, &Lines { around, policy });
}
