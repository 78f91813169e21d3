//! What the calls of a key are ordered by.
ghost use Rattle.std.specs.Prelude.{◌≡◌, ◌<◌, ◌^◌};
ghost use Rattle.std.specs.Option.{option_map};
ghost use Rattle.rambo_history.specs.Calls.{key_of};
ghost use Rattle.rambo_sequence.specs.Marks.{mark_at};
ghost use Rattle.rambo_sequence.specs.RankedCalls.{ranked, sort_key_at};

use crate::mark::TaggedPlace;
use rambo_history::{CallId, Event, History, Op};
use rambo_names::Bytes;

/// A mark's tag and its rank under that tag.
#[derive(Clone, Copy, PartialEq, Eq, PartialOrd, Ord)]
pub(crate) struct SortKey {
    pub(crate) sequence: u64,
    pub(crate) writer: u64,
    pub(crate) rank: usize,
}

/// A call, with what it is ordered by.
#[derive(Clone, Copy)]
pub(crate) struct RankedCall {
    pub(crate) sort_key: SortKey,
    pub(crate) id: CallId,
}

// The key and the call of a mark, if a call is made at its place.
pub(crate) fn ranked_call<'a>(
    history: &'a History,
    mark: &TaggedPlace,
) -> Option<(&'a Bytes, RankedCall)>
    ensures key { option_map (λ r. r.0.now) result ≡ option_map (λ m. key_of m.op) (mark_at history.now.events mark.now) }
    ensures call { option_map (λ r. r.1) result ≡ option_map (ranked history.now.events) (mark_at history.now.events mark.now) }
{
    match history.events().get(mark.place)? {
        Event::Call(id, op) => {
            let call = RankedCall {
                sort_key: sort_key(op, mark),
                id: *id,
            };
            Some((op.key(), call))
        }
        Event::Answer(_, _) => None,
    }
}

// What a mark of an operation is ordered by. No copy counts as the tag (0, 0), and a set comes before the gets of its tag.
fn sort_key(op: &Op, mark: &TaggedPlace) -> SortKey
    requires { mark.now.place < 2 ^ 63 }
    ensures { result ≡ sort_key_at op.now mark.now }
{
    let rank = if op.is_get() { mark.place + 1 } else { 0 };
    match &mark.tag {
        Some(tag) => SortKey {
            sequence: tag.sequence,
            writer: tag.name.number(),
            rank,
        },
        None => SortKey {
            sequence: 0,
            writer: 0,
            rank,
        },
    }
}
