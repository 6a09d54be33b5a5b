// Categories and visibilities from the numbers that stand for them, in a sheet and in the C
// exports.
ghost use Rattle.std.specs.Prelude.{◌≡◌};
ghost use Rattle.situation.specs.Codes as Spec;

use crate::party::{Tack, VesselCategory, Visibility};

// 0 power-driven, 1 to 3 sailing, on an unknown tack, the port tack and the starboard tack, 4
// fishing, 5 constrained by her draught, 6 restricted in her ability to manoeuvre; any other number
// is not under command.
impl From<u32> for VesselCategory {
    ghost from_gives = { λ code result. result ≡ Spec.category_of code };

    #[tactic(auto, unfolding(crate::specs::Codes::category_of))]
    fn from(code: u32) -> VesselCategory {
        match code {
            0 => VesselCategory::PowerDriven,
            1 => VesselCategory::Sailing {
                tack: Tack::Unknown,
            },
            2 => VesselCategory::Sailing { tack: Tack::Port },
            3 => VesselCategory::Sailing {
                tack: Tack::Starboard,
            },
            4 => VesselCategory::Fishing,
            5 => VesselCategory::ConstrainedByDraught,
            6 => VesselCategory::RestrictedInAbilityToManoeuvre,
            _ => VesselCategory::NotUnderCommand,
        }
    }
}

// 0 in sight; any other number is restricted.
impl From<u32> for Visibility {
    ghost from_gives = { λ code result. result ≡ Spec.visibility_of code };

    #[tactic(auto, unfolding(crate::specs::Codes::visibility_of))]
    fn from(code: u32) -> Visibility {
        match code {
            0 => Visibility::InSight,
            _ => Visibility::Restricted,
        }
    }
}
