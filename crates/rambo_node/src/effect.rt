//! What a step does.

ghost use Rattle.std.specs.Prelude.{◌≡◌};
ghost use Rattle.rambo_node.specs.Changes.{answer_in, collected_in, decided_in};

use crate::decided::Decided;
use rambo_history::{Answer, CallId};
use rambo_names::Name;

/// What an accepted step did.
#[derive(Drop, Debug)]
pub enum Effect<Q> {
    /// A join, a delivery, a restarted phase, a stop, or that a collection or an attempt began.
    Done,
    /// A call was made, under this number.
    Called(CallId),
    /// A letter was sent: the letters are numbered from 1.
    Sent(u64),
    /// A call's query phase was met, and its propagation phase began; or the first quorum of a collection or of
    /// an attempt was there.
    Moved,
    /// A call's propagation phase was met.
    Answered(CallId, Answer),
    /// This node's collection of this place ended.
    Collected(Name, u64),
    /// This node's attempt ended.
    Decided(Name, Decided<Q>),
}

impl<Q: Copy> Effect<Q> {
    // The answer that a call got, if it did.
    pub(crate) fn into_answer(self) -> Option<Answer>
        ensures { result ≡ answer_in self }
    {
        match self {
            Effect::Answered(_, answer) => Some(answer),
            _ => None,
        }
    }

    // The place whose collection ended, if one did.
    pub(crate) fn collected(&self) -> Option<u64>
        ensures { result ≡ collected_in self.now }
    {
        match self {
            Effect::Collected(_, place) => Some(*place),
            _ => None,
        }
    }

    // What an attempt that ended came to, if one did.
    pub(crate) fn decided(&self) -> Option<Decided<Q>>
        ensures { result ≡ decided_in self.now }
    {
        match self {
            Effect::Decided(_, decided) => Some(*decided),
            _ => None,
        }
    }
}
