// What the whole numbers of a sheet stand for: quantities in 1/1024, codes, own craft and the
// traffic.
ghost use Rattle.std.specs.Prelude.{◌≡◌, map};
ghost use Rattle.sheet.specs.Values as Spec;

use arrayvec::ArrayVec;
use clearance::traffic::Entry;
use motion::capacity::MAX_CONTACTS;
use motion::units::{Direction, Distance, Speed};
use motion::vessel::{Contact, Vessel};
use sheet_record::{Header, Row};
use situation::party::{Circumstances, Party, VesselCategory, Visibility};

// A count of 1/1024, exactly.
#[tactic(auto, using(std::proofs::Common::refl), unfolding(crate::specs::Values::scaled))]
pub fn scaled(n: u32) -> f64
    ensures { result ≡ Spec.scaled n }
{
    std::num::nearest_u64_to_f64(n as u64) / 1024.0
}

#[tactic(auto, unfolding(crate::specs::Values::vessel_of))]
fn vessel_of(course: u32, speed: u32) -> Vessel
    ensures { result ≡ Spec.vessel_of course speed }
{
    Vessel {
        course: Direction(scaled(course)),
        speed: Speed(scaled(speed)),
    }
}

#[tactic(auto, unfolding(situation::specs::Situation::party))]
fn party_of(course: u32, speed: u32, category: VesselCategory) -> Party
    ensures { result ≡ Spec.party course speed category }
{
    Party::new(vessel_of(course, speed), category)
}

// Own craft, who heads where she goes.
#[tactic(auto, unfolding(crate::specs::Values::own_of, crate::specs::Values::party_of))]
pub(crate) fn own_of(h: Header) -> Party
    ensures { result ≡ Spec.own_of h }
{
    party_of(h.course, h.speed, VesselCategory::from(h.category))
}

// Where the wind comes from, if the sheet tells it.
#[tactic(auto, unfolding(crate::specs::Values::wind_from))]
pub fn wind_from(h: Header) -> Option<Direction>
    ensures { result ≡ Spec.wind_from h }
{
    h.wind.map(|n| Direction(scaled(n)))
}

// What the rulings on a sheet's contacts share.
#[tactic(auto, unfolding(crate::specs::Values::circumstances_of))]
pub fn circumstances_of(h: Header) -> Circumstances
    ensures { result ≡ Spec.circumstances_of h }
{
    Circumstances {
        own: own_of(h),
        visibility: Visibility::from(h.visibility),
        wind_from: wind_from(h),
    }
}

// A contact of a sheet; she heads where she goes.
#[tactic(auto, unfolding(crate::specs::Values::entry_of, crate::specs::Values::party_of))]
pub fn entry_of(row: Row) -> Entry
    ensures { result ≡ Spec.entry_of row }
{
    Entry {
        contact: Contact {
            bearing: Direction(scaled(row.bearing)),
            range: Distance(scaled(row.range)),
        },
        target: party_of(row.course, row.speed, VesselCategory::from(row.category)),
    }
}

// The traffic of a sheet's contacts, in their order.
pub fn traffic_of(rows: &ArrayVec<Row, MAX_CONTACTS>) -> ArrayVec<Entry, MAX_CONTACTS>
    ensures { result.items ≡ map Spec.entry_of rows.now.items }
{
    let listed = rows.as_slice();
    let mut t = ArrayVec::new();
    for row in listed {
        t.push(entry_of(*row));
    }
    t
}
