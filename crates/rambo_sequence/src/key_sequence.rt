//! Sequences of keys.

use rambo_history::CallId;
use rambo_names::Bytes;
use std::marker::Model;

/// The given sequence of a key.
#[derive(Drop, Debug)]
pub struct KeySequence {
    pub key: Bytes,
    pub calls: Vec<CallId>,
}

impl Model for KeySequence {
    ghost use Rattle.rambo_sequence.specs.Sequences.{SequenceOf};

    ghost Value = { SequenceOf };

    ghost view = { λ s. record { key = s.key; calls = s.calls.items } };
}
