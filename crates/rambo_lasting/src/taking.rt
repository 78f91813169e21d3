//! The steps of a trace are taken by who recovers a post.
ghost use Rattle.std.specs.Prelude.{◌≡◌, Some, OnOk, IfErr};

use rambo_cluster::Copies;
use rambo_names::{Refusal, Weighted};
use rambo_post::{Recovery, Terms};
use rambo_retrace::Taker;
use rambo_run::Step;

/// A recovery that takes the steps of a trace. Contracts see the steps that it took.
#[derive(Drop)]
pub(crate) struct Taking<J: Terms<Weighted>> {
    pub(crate) recovery: Recovery<J, Weighted, Copies>,
}

impl<J: Terms<Weighted>> Taker for Taking<J> {
    ghost use Rattle.std.specs.Prelude.{◌≡◌, Some};
    ghost use Rattle.rambo_names.specs.Weights.{Weights, weighted_majorities};
    ghost use Rattle.rambo_recovery.specs.Recoveries.{WhyUntaken};

    ghost steps = { λ t. t.recovery };

    ghost refuses = { λ t st r. (f : Weights) → J.founders ≡ Some f → WhyUntaken weighted_majorities f J.capacity J.lose t.recovery st r };

    fn take(&mut self, step: Step<Weighted>) -> Result<(), Refusal> {
        self.recovery.take(step)
    }
}
