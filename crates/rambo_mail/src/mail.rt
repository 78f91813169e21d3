//! Letters in a tray.

use rambo_gossip::Letter;
use rambo_names::Quorums;

/// A letter in a tray.
#[derive(Drop)]
pub struct Mail<Q: Quorums> {
    /// Its number: the first letter that was sent is 1.
    pub number: u64,
    /// Whether it asks for one in return.
    pub asks: bool,
    /// The letter itself.
    pub letter: Letter<Q>,
}
