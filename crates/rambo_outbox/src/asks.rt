//! What a node asks for.

/// What a node asks for.
#[derive(Clone, Copy, PartialEq, Eq, Debug)]
pub(crate) enum Asks {
    /// Nothing: there is nothing new, and it isn't time to ask again.
    Nothing,
    /// What is new, while something else that was asked for hasn't come yet.
    More,
    /// What is new, while nothing else is in flight.
    First,
    /// All again, since it is time.
    Again,
}
