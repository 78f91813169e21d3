//! What a step means for the mail.
ghost use Rattle.std.specs.Prelude.{◌≡◌, option_to_list};
ghost use Rattle.rambo_run.specs.Actors.{sent_by};

use rambo_names::{Name, Quorums};
use rambo_run::Step;

/// What a step means for the mail, as it is before the step.
#[derive(Clone, Copy)]
pub struct Posting {
    /// The addressee of the letter that it sends, if it sends one.
    pub to: Option<Name>,
    /// Whether that letter asks for one in return.
    pub asks: bool,
}

impl Posting {
    /// Of a step whose letter asks for one in return or doesn't, if it sends one.
    pub fn new<Q: Quorums>(step: &Step<Q>, asks: bool) -> Posting
        ensures to { option_to_list result.to ≡ sent_by step.now }
        ensures asks { result.asks ≡ asks }
    {
        Posting {
            to: sent_by(step),
            asks,
        }
    }
}

// Whom the letter is for that a step sends, if it sends one.
fn sent_by<Q: Quorums>(step: &Step<Q>) -> Option<Name>
    ensures { option_to_list result ≡ sent_by step.now }
{
    match step {
        Step::Send(_, to) => Some(*to),
        _ => None,
    }
}
