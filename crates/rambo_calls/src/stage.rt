//! How far an open call is.

use rambo_tag::Version;

/// How far an open call is.
#[derive(Drop, Debug)]
pub enum Stage {
    /// It asks a quorum for copies.
    Query,
    /// It sends a copy to a quorum: a set's own, or the one that a get will answer, which is none where
    /// the key was absent.
    Propagation(Option<Version>),
}
