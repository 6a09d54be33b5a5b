// The trial list of a side (document 01, 'Trial list'): least plus k, for k from 0 to the whole
// part of most minus least, each sum and difference rounded once, cut at most. In degrees.
ghost use Rattle.std.specs.Prelude.{◌≡◌, length};
ghost use Rattle.manoeuvre.specs.Step as Step;
ghost use Rattle.manoeuvre.specs.Trials as Spec;

// The trials from the least alteration to the most.
#[derive(Clone, Copy)]
pub struct TrialList {
    pub least: f64,
    pub most: f64,
}

impl TrialList {
    // The last trial's k.
    #[tactic(auto, unfolding(crate::specs::Trials::last))]
    pub fn last(self) -> usize
        ensures { result ≡ Spec.last self.least self.most }
    {
        math::to_usize(self.most - self.least)
    }

    // How many trials there are: as many as a step of 1 degree makes of the difference, for which
    // nothing is divided (request R-4).
    #[tactic(auto, using(crate::proofs::Listed::counted, crate::proofs::Listed::room, crate::proofs::Step::counted))]
    pub fn count(self) -> usize
        ensures listed { result ≡ length (Spec.trials self.least self.most) }
        ensures by_step { result ≡ Step.count self.least self.most }
    {
        self.last() + 1
    }

    // Trial k. Not `sum.min(self.most)`: it answers the most where the sum is no number, for which
    // the definition has the sum.
    #[tactic(auto, unfolding(crate::specs::Trials::trial))]
    pub fn trial(self, k: usize) -> f64
        ensures { result ≡ Spec.trial self.least self.most k }
    {
        let sum = self.least + math::count_to_f64(k);
        if self.most < sum {
            return self.most;
        }
        sum
    }
}
