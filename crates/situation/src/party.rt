// Who meets whom, and in what conditions.
ghost use Rattle.std.specs.Prelude.{◌≡◌};
ghost use Rattle.situation.specs.Situation as Spec;

use motion::units::Direction;
use motion::vessel::{Contact, Vessel};

// The side of a sailing vessel that the wind is on. Three values and no `Option<Side>`: Rule
// 12(a)(iii) names the unknown tack, and `sailing_vessels` of colregs matches on it beside the
// others.
#[derive(Clone, Copy)]
pub enum Tack {
    Port,
    Starboard,
    Unknown,
}

#[derive(Clone, Copy, Default)]
pub enum VesselCategory {
    #[default]
    PowerDriven,
    Sailing { tack: Tack },
    Fishing,
    ConstrainedByDraught,
    RestrictedInAbilityToManoeuvre,
    NotUnderCommand,
}

// A vessel in an encounter: how she moves, where she heads if that is known, what she is.
#[derive(Clone, Copy, Default)]
pub struct Party {
    pub motion: Vessel,
    pub heading: Option<Direction>,
    pub category: VesselCategory,
}

#[derive(Clone, Copy)]
pub enum Visibility {
    InSight,
    Restricted,
}

#[derive(Clone, Copy)]
pub struct Situation {
    pub own: Party,
    pub target: Party,
    pub contact: Contact,
    pub visibility: Visibility,
    pub wind_from: Option<Direction>,
}

// What the rulings on all contacts share: own craft, the visibility, and where the wind comes from
// if that is known. `Situation` has these fields again and not one of this type: by the project's
// rule it holds what kinavis's has, in its order.
#[derive(Clone, Copy)]
pub struct Circumstances {
    pub own: Party,
    pub visibility: Visibility,
    pub wind_from: Option<Direction>,
}

impl Circumstances {
    // The situation with a contact.
    pub fn with(self, contact: Contact, target: Party) -> Situation
        ensures { result ≡ Spec.with_contact self contact target }
    {
        Situation {
            own: self.own,
            target,
            contact,
            visibility: self.visibility,
            wind_from: self.wind_from,
        }
    }
}

impl VesselCategory {
    // The rank of a category: of two, the lower one keeps out of the way. Written out: a derived
    // order would rank sailing vessels by their tacks.
    pub fn precedence(self) -> u8
        ensures { result ≡ Spec.precedence self }
    {
        match self {
            VesselCategory::PowerDriven => 0,
            VesselCategory::Sailing { .. } => 1,
            VesselCategory::Fishing => 2,
            VesselCategory::ConstrainedByDraught => 3,
            VesselCategory::RestrictedInAbilityToManoeuvre => 4,
            VesselCategory::NotUnderCommand => 5,
        }
    }
}

impl Party {
    // A vessel that heads where she goes.
    #[tactic(auto, unfolding(crate::specs::Situation::party))]
    pub fn new(motion: Vessel, category: VesselCategory) -> Party
        ensures { result ≡ Spec.party motion category }
    {
        Party {
            motion,
            heading: None,
            category,
        }
    }

    // The same vessel, heading as given.
    #[tactic(auto, unfolding(crate::specs::Situation::with_heading))]
    pub fn with_heading(self, heading: Direction) -> Party
        ensures { result ≡ Spec.with_heading self heading }
    {
        Party {
            heading: Some(heading),
            ..self
        }
    }

    // The heading, the course where it is unknown.
    #[tactic(auto, unfolding(crate::specs::Situation::heading))]
    pub fn heading(self) -> Direction
        ensures { result ≡ Spec.heading self }
    {
        self.heading.unwrap_or(self.motion.course)
    }
}

impl Situation {
    // A situation of unknown wind.
    #[tactic(auto, unfolding(crate::specs::Situation::situation))]
    pub fn new(own: Party, target: Party, contact: Contact, visibility: Visibility) -> Situation
        ensures { result ≡ Spec.situation own target contact visibility }
    {
        Situation {
            own,
            target,
            contact,
            visibility,
            wind_from: None,
        }
    }

    // The same situation with the wind from where it is given.
    #[tactic(auto, unfolding(crate::specs::Situation::with_wind_from))]
    pub fn with_wind_from(self, from: Direction) -> Situation
        ensures { result ≡ Spec.with_wind_from self from }
    {
        Situation {
            wind_from: Some(from),
            ..self
        }
    }
}
