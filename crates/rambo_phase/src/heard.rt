//! What a letter is to a phase.

/// What a letter is to a phase.
#[derive(Clone, Copy, PartialEq, Eq, Debug)]
pub enum Heard {
    /// A reply: it was sent after its sender had heard of the phase, and its map leaves no gap.
    Counted,
    /// No reply: its sender hadn't heard of the phase yet.
    Old,
    /// A reply whose map has removed the place just above the phase, so the phase has to restart.
    Restart,
}
