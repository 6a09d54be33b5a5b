// The collision picture: targets assessed against own craft at one instant (assessment.rs,
// `CollisionPicture`), a fixed array and a count.
ghost use Rattle.std.specs.Prelude.{◌≡◌, ◌≤◌, [], ◌∷◌, eqb, length};
ghost use Rattle.assessment.specs.MostDangerous.{MostDangerous};
ghost use Rattle.assessment.specs.Picture as Spec;
ghost use Rattle.motion.specs.Capacity.{max_contacts};

use crate::risk::CollisionRisk;
use crate::target::{TargetAssessment, is_at_least, keep};
use motion::capacity::MAX_CONTACTS;

// The first `count` of the list, in the order in which they were listed. No `ArrayVec`, which can't
// be copied.
#[derive(Clone, Copy)]
pub struct CollisionPicture {
    count: usize,
    list: [TargetAssessment; MAX_CONTACTS],
}

impl CollisionPicture {
    // A picture of no target.
    pub fn new() -> CollisionPicture
        ensures { Spec.targets result ≡ [] }
    {
        CollisionPicture {
            count: 0,
            list: [TargetAssessment::default(); MAX_CONTACTS],
        }
    }

    // A picture of one target.
    #[tactic(auto, unfolding(crate::specs::Picture::pushed))]
    pub fn of(first: TargetAssessment) -> CollisionPicture
        ensures { Spec.targets result ≡ first ∷ [] }
    {
        let mut out = CollisionPicture::new();
        out.push(first);
        out
    }

    // One target more, where there is room.
    #[tactic(auto, unfolding(crate::specs::Picture::pushed))]
    pub fn push(&mut self, e: TargetAssessment)
        ensures { Spec.targets self.new ≡ Spec.pushed (Spec.targets self.old) e }
    {
        if self.count < MAX_CONTACTS {
            self.list[self.count] = e;
            self.count += 1;
        }
    }

    // How many targets are assessed.
    pub fn len(&self) -> usize
        ensures { result ≡ length (Spec.targets self.now) }
    {
        self.targets().len()
    }

    // Whether no target is assessed.
    pub fn is_empty(&self) -> bool
        ensures { result ≡ eqb (length (Spec.targets self.now)) 0 }
    {
        self.targets().is_empty()
    }

    // The targets that are assessed, in the order in which they were listed.
    pub fn targets(&self) -> &[TargetAssessment]
        ensures listed { result.now ≡ Spec.targets self.now }
        ensures fits { length result.now ≤ max_contacts }
    {
        &self.list[..self.count.min(MAX_CONTACTS)]
    }

    // The first that is listed under a number.
    pub fn target(&self, target: u32) -> Option<TargetAssessment>
        ensures { result ≡ Spec.found target (Spec.targets self.now) }
    {
        self.targets().iter().find(|e| e.target == target).copied()
    }

    // The highest risk, then the least time to go, then the last listed; none in an empty picture.
    pub fn most_dangerous(&self) -> Option<TargetAssessment>
        ensures is { result ≡ Spec.most_dangerous (Spec.targets self.now) }
        ensures property { MostDangerous (Spec.targets self.now) result }
    {
        self.targets().iter().fold(None, |best, e| keep(best, *e))
    }

    fn push_if(&mut self, least: CollisionRisk, e: TargetAssessment)
        ensures { Spec.targets self.new ≡ Spec.pushed_if least (Spec.targets self.old) e }
    {
        if is_at_least(e, least) {
            self.push(e);
        }
    }

    // Those of at least a risk, in their order.
    pub fn at_least(&self, least: CollisionRisk) -> CollisionPicture
        ensures { Spec.targets result ≡ Spec.at_least least (Spec.targets self.now) }
    {
        let listed = self.targets();
        let mut kept = CollisionPicture::new();
        for e in listed {
            kept.push_if(least, *e);
        }
        kept
    }
}
