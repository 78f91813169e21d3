//! The places of a call and its answer in a history.
ghost use Rattle.std.specs.Prelude.{◌≡◌};
ghost use Rattle.rambo_history.specs.Places.{places_of};

/// The place of a call in the list of events, and that of its answer: 0 where it has none, since no answer comes first.
#[derive(Clone, Copy)]
pub struct Spot {
    /// The place of the call, from 0 on.
    pub called: usize,
    pub(crate) answered: usize,
}

impl Spot {
    /// The place of the call's answer, if it has one.
    pub fn answered(&self) -> Option<usize>
        ensures { result ≡ (places_of self.now).answered }
    {
        if self.answered == 0 {
            None
        } else {
            Some(self.answered)
        }
    }
}
