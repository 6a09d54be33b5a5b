// A collision picture of the contacts, and the words that are read off it (specs/Picture.antt).
ghost use Rattle.std.specs.Prelude.{◌≡◌};
ghost use Rattle.assessment.specs.Picture as Picture;
ghost use Rattle.exports.specs.Picture as Spec;

use crate::answers::{pattern, refusal_word};
use assessment::assess::{self, CollisionAssessment};
use assessment::picture::CollisionPicture;
use assessment::policy::CpaPolicy;
use assessment::risk::CollisionRisk;
use assessment::target::TargetAssessment;
use clearance::traffic::Entry;
use elementary::error::Refusal;
use motion::vessel::Vessel;

// ---- the picture
fn add(p: &mut CollisionPicture, answer: Result<CollisionAssessment, Refusal>)
    ensures { Picture.targets p.new ≡ Spec.with_answer (Picture.targets p.old) answer }
{
    if let Ok(assessment) = answer {
        let target = (p.len() % 5) as u32;
        p.push(TargetAssessment { target, assessment });
    }
}

fn pictured(own: Vessel, t: &[Entry], policy: CpaPolicy) -> CollisionPicture
    ensures { Picture.targets result ≡ Spec.pictured own t.now policy }
{
    let mut p = CollisionPicture::new();
    for e in t {
        add(
            &mut p,
            assess::assess(own, e.contact, e.target.motion, policy),
        );
    }
    p
}

// ---- its words
#[tactic(auto, unfolding(crate::specs::Picture::risk_of))]
fn risk_of(code: u32) -> CollisionRisk
    ensures { result ≡ Spec.risk_of code }
{
    match code {
        0 => CollisionRisk::Opening,
        1 => CollisionRisk::Passing,
        2 => CollisionRisk::Developing,
        _ => CollisionRisk::Dangerous,
    }
}

// The range of a target, and 0 for nobody.
fn range_word(t: Option<TargetAssessment>) -> u64
    ensures { result ≡ Spec.range_word t }
{
    t.map_or(0, |e| pattern(e.assessment.range().0))
}

#[tactic(auto, unfolding(crate::specs::Picture::word_of))]
fn word_of(p: &CollisionPicture, part: u32) -> u64
    ensures { result ≡ Spec.word_of (Picture.targets p.now) part }
{
    match part {
        1 => p.len() as u64,
        2 => range_word(p.most_dangerous()),
        3..=7 => range_word(p.target(part - 3)),
        8..=11 => p.at_least(risk_of(part - 8)).len() as u64,
        12..=15 => range_word(p.at_least(risk_of(part - 12)).most_dangerous()),
        _ => 0,
    }
}

// A word of the picture of some contacts, with limits that may be refused.
pub(crate) fn picture_word(
    own: Vessel,
    t: &[Entry],
    policy: Result<CpaPolicy, Refusal>,
    part: u32,
) -> u64
    ensures { result ≡ Spec.picture_word own t.now policy part }
{
    match policy {
        Ok(policy) => word_of(&pictured(own, t, policy), part),
        Err(why) => refusal_word(why, part),
    }
}
