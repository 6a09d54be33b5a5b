// What a sheet asks for, as the module has it: the limits of the assessment and of the turn, and
// the id of the contact at a place.
ghost use Rattle.std.specs.Prelude.{◌≡◌};
ghost use Rattle.sheet.specs.Limits as Spec;

use crate::values::scaled;
use assessment::policy::CpaPolicy;
use elementary::error::Refusal;
use manoeuvre::constraints::{ManoeuvreConstraints, PermittedSides};
use math::duration::Duration;
use motion::units::{Angle, Distance};
use sheet_record::{Header, Row};

// The id of the limiting contact, 0 where there is none.
#[tactic(auto, unfolding(crate::specs::Limits::id_at))]
pub fn id_at(rows: &[Row], limiting: Option<usize>) -> u32
    ensures { result ≡ Spec.id_at rows.now limiting }
{
    limiting
        .and_then(|place| rows.get(place))
        .map_or(0, |row| row.id)
}

// The limits of the assessment.
#[tactic(auto, unfolding(crate::specs::Limits::policy_of))]
pub fn policy_of(h: Header) -> Result<CpaPolicy, Refusal>
    ensures { result ≡ Spec.policy_of h }
{
    let latest = Duration {
        secs: h.tcpa_limit as u64,
        nanos: 0,
    };
    CpaPolicy::new(Distance(scaled(h.cpa_limit)), latest)
}

// The limits of the turn; the ruled search takes no sides from its caller.
#[tactic(auto, unfolding(crate::specs::Limits::constraints_of))]
pub fn constraints_of(h: Header) -> Result<ManoeuvreConstraints, Refusal>
    ensures { result ≡ Spec.constraints_of h }
{
    let least = Angle(scaled(h.least));
    let most = Angle(scaled(h.most));
    ManoeuvreConstraints::new(PermittedSides::Either, least, most)
}
