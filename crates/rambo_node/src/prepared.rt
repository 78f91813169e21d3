//! Quiet changes, and what is found of others before they are made.

use rambo_history::CallId;
use rambo_names::Members;
use rambo_tag::{KeyedVersion, Pack, Version};

/// A change that allocates nothing, and of which nothing goes into the history or to other nodes: any but a call, its
/// advance, and a letter that goes out or comes.
#[derive(Drop)]
pub enum Quiet<Q> {
    /// The node begins to join, with these contacts.
    Join(Members),
    /// The current phase of its call restarts.
    Again(CallId),
    /// It begins to collect the lowest place of its map.
    Collect,
    /// Its collection, whose quorum has replied, advances.
    AdvanceCollect,
    /// It begins to have this configuration chosen for the first place that its map doesn't know.
    Recon(Q),
    /// Its attempt is retried with a fresh ballot.
    Rebid,
    /// Its attempt, whose quorum has replied, advances.
    AdvanceRecon,
    /// It stops for ever.
    Stop,
}

/// Where an open call that may advance is, and the sequence number that a set in its query starts from.
#[derive(Clone, Copy)]
pub struct Found {
    // Its place among the open ones.
    pub(crate) place: usize,
    // Of a set in its query the sequence number of its key's tag, and 0 of any other call.
    pub(crate) sequence: u64,
}

/// A call that advances, and what else the second half of its advance needs.
///
/// Its owner keeps it from the first half to the second one, and begins it with no copies. Both halves write to it in
/// place, since it is large.
#[derive(Drop)]
pub struct Moving {
    /// The open call.
    pub id: CallId,
    /// Where it was found.
    pub found: Found,
    /// The copy that will be propagated, where its query is met.
    pub kept: Option<Version>,
    /// The copy that a set will put.
    pub put: Option<KeyedVersion>,
}

/// What the second half of hearing a letter needs, apart from the letter without its copies.
#[derive(Drop)]
pub struct Hearing {
    // Copies that come to the same for the node as those of the letter.
    pub(crate) copies: Pack,
    // The phase number after it.
    pub(crate) number: u64,
}
