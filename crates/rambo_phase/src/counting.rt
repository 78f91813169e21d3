//! What counting a letter means.
ghost use Rattle.std.specs.Prelude.{◌≡◌, ℕ};
ghost use Rattle.rambo_config_map.specs.Maps.{MapState};
ghost use Rattle.rambo_phase.specs.Phases.{PhaseState, heard_as, after_letter};
ghost use Rattle.rambo_phase.specs.Counting.{CountsReply};

use crate::heard::Heard;
use rambo_names::Quorums;

/// The laws of hearing a letter, for readers and proofs; at run time it does nothing.
///
/// A phase that counts a letter keeps each configuration it had, has the letter's active configurations above its old
/// end and no others, and has exactly one more replier. Any other letter changes nothing.
pub fn counting_laws<Q: Quorums>()
    ensures counted { (p : PhaseState Q) (number : ℕ) (m : MapState Q) (sender : ℕ) → heard_as p number m ≡ Heard.Counted
        → CountsReply p m sender (after_letter p number m sender) }
    ensures others { (p : PhaseState Q) (number : ℕ) (m : MapState Q) (sender : ℕ) → (heard_as p number m ≡ Heard.Counted → ⊥)
        → after_letter p number m sender ≡ p }
{}
