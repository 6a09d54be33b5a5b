// The smallest alteration of the trial list that clears the traffic (avoidance.rs, `search`;
// document 01, 'Trial list').
//
// The trials of both sides are tried together, by their magnitude and starboard first, so that the
// first one that clears is the answer; proofs/Smallest.antt says that this is document 01's choice:
// the first that clears on each side, the smaller of the two, starboard on equality.
ghost use Rattle.std.specs.Prelude.{◌≡◌};
ghost use Rattle.clearance.specs.Clearing as Clearing;
ghost use Rattle.avoidance.specs.Search as Spec;

use clearance::Clearance;
use clearance::contact::Moving;
use manoeuvre::trials::TrialList;
use motion::side::{BySide, Side};
use motion::units::{Angle, Direction, Distance};
use motion::vessel::Vessel;

// The sides to which own craft may alter.
pub type Sides = BySide<bool>;

// A trial that clears: the list that held it, its magnitude, and how the traffic passes.
#[derive(Clone, Copy)]
pub struct Chosen {
    pub side: Side,
    pub magnitude: Angle,
    pub clearance: Clearance,
}

// The alteration of a trial, positive to starboard.
pub fn signed(side: Side, magnitude: f64) -> f64
    ensures { result ≡ Spec.signed side magnitude }
{
    match side {
        Side::Starboard => magnitude,
        Side::Port => -magnitude,
    }
}

// Own craft with her course altered.
#[tactic(auto, unfolding(clearance::specs::Clearing::altered))]
pub fn altered(own: Vessel, alteration: f64) -> Vessel
    ensures { result ≡ Clearing.altered own alteration }
{
    Vessel {
        course: Direction(math::angle::from_degrees_wrapped(own.course.0 + alteration)),
        ..own
    }
}

fn chosen_if(side: Side, magnitude: f64, c: Option<Clearance>) -> Option<Chosen>
    ensures { result ≡ Spec.chosen side magnitude c }
{
    c.map(|clearance| Chosen {
        side,
        magnitude: Angle(magnitude),
        clearance,
    })
}

// Own craft among the contacts of a scene, none of which may come nearer than `floor`.
#[derive(Clone, Copy)]
pub struct Search<'a> {
    pub own: Vessel,
    pub scene: &'a [Moving],
    pub floor: f64,
}

impl<'a> Search<'a> {
    // The search for a distance that is wanted: its floor is 1e-9 below, since an exact answer
    // lands on the distance.
    #[tactic(auto, unfolding(clearance::specs::Clearing::floor_of))]
    pub fn new(own: Vessel, scene: &'a [Moving], desired: Distance) -> Search<'a>
        ensures own { result.own ≡ own }
        ensures scene { result.scene.now ≡ scene.now }
        ensures floor { result.floor ≡ Clearing.floor_of desired }
    {
        Search {
            own,
            scene,
            floor: desired.0 - 1e-9,
        }
    }

    // A trial, on a side that is permitted or not.
    #[tactic(auto, unfolding(crate::specs::Search::trial_clears_computed))]
    pub(crate) fn try_side(&self, permitted: bool, side: Side, magnitude: f64) -> Option<Chosen>
        ensures { result ≡ Spec.tried permitted side magnitude (Spec.trial_clears_computed self.now.own self.now.floor self.now.scene.now side magnitude) }
    {
        if permitted {
            let v = altered(self.own, signed(side, magnitude));
            return chosen_if(
                side,
                magnitude,
                clearance::clears(v.velocity(), self.scene, self.floor),
            );
        }
        None
    }

    // The trials of one magnitude, starboard first.
    #[tactic(auto, unfolding(crate::specs::Search::tried_both, crate::specs::Search::both))]
    fn try_both(&self, sides: Sides, magnitude: f64) -> Option<Chosen>
        ensures { result ≡ Spec.tried_both self.now.own self.now.floor self.now.scene.now sides magnitude }
    {
        [Side::Starboard, Side::Port]
            .into_iter()
            .find_map(|side| self.try_side(sides.on(side), side, magnitude))
    }

    // The smallest trial on a permitted side that clears the scene.
    pub fn smallest(&self, sides: Sides, list: TrialList) -> Option<Chosen>
        ensures { result ≡ Spec.smallest self.now.own self.now.floor self.now.scene.now sides list.least list.most }
    {
        (0..list.count()).find_map(|k| self.try_both(sides, list.trial(k)))
    }
}
