// The kind of an encounter.
ghost use Rattle.std.specs.Prelude.{◌≡◌};
ghost use Rattle.colregs.specs.Colregs as Spec;

use crate::answer::Encounter;
use crate::geometry::Geometry;
use motion::side::Side;
use situation::config::ColregsConfig;

// Nearer to the bow than this, in degrees, is dead ahead.
const DEAD_AHEAD: f64 = 1e-9;

// The widths and the geometry stay two arguments: as methods of a struct of both (tried, and
// proved) the functions below are 11 lines longer, and each says `self.config` and `self.f` where
// it has `config` and `f` now.

// Rule 13(b): whether a direction off a vessel's bow is more than the limit abaft her beam.
#[tactic(auto, unfolding(crate::specs::Colregs::abaft))]
fn abaft(config: ColregsConfig, direction: f64) -> bool
    ensures { result ≡ Spec.abaft config direction }
{
    math::abs(direction) > 90.0 + config.overtaking_abaft_beam.0
}

#[tactic(auto, unfolding(crate::specs::Colregs::own_comes_up))]
fn own_comes_up(config: ColregsConfig, f: Geometry) -> bool
    ensures { result ≡ Spec.own_comes_up config f }
{
    f.closing && abaft(config, f.aspect)
}

#[tactic(auto, unfolding(crate::specs::Colregs::target_comes_up))]
fn target_comes_up(config: ColregsConfig, f: Geometry) -> bool
    ensures { result ≡ Spec.target_comes_up config f }
{
    f.closing && abaft(config, f.relative)
}

// Where each comes up from astern of the other, the faster one overtakes.
#[tactic(auto, unfolding(crate::specs::Colregs::own_overtakes))]
fn own_overtakes(config: ColregsConfig, f: Geometry) -> bool
    ensures { result ≡ Spec.own_overtakes config f }
{
    own_comes_up(config, f) && (!target_comes_up(config, f) || f.own_speed.0 > f.target_speed.0)
}

// Rule 14(b): each sees the other ahead or nearly ahead.
#[tactic(auto, unfolding(crate::specs::Colregs::is_head_on))]
fn is_head_on(config: ColregsConfig, f: Geometry) -> bool
    ensures { result ≡ Spec.is_head_on config f }
{
    math::abs(f.relative) <= config.head_on_half_width.0
        && math::abs(f.aspect) <= config.head_on_half_width.0
}

// The side on which own craft has the other.
#[tactic(auto, unfolding(crate::specs::Colregs::side_of))]
fn side_of(f: Geometry) -> Side
    ensures { result ≡ Spec.side_of f }
{
    if math::abs(f.relative) < DEAD_AHEAD {
        if f.aspect < 0.0 {
            return Side::Starboard;
        }
        return Side::Port;
    }
    if f.relative > 0.0 {
        return Side::Starboard;
    }
    Side::Port
}

// Overtaking before being overtaken, head-on next, else crossing (Rules 13 to 15).
#[tactic(auto, unfolding(crate::specs::Colregs::encounter_of, crate::specs::Colregs::target_overtakes))]
pub(crate) fn encounter_of(config: ColregsConfig, f: Geometry) -> Encounter
    ensures { result ≡ Spec.encounter_of config f }
{
    if own_overtakes(config, f) {
        return Encounter::Overtaking;
    }
    if target_comes_up(config, f) {
        return Encounter::BeingOvertaken;
    }
    if is_head_on(config, f) {
        return Encounter::HeadOn;
    }
    Encounter::Crossing {
        target_on: side_of(f),
    }
}
