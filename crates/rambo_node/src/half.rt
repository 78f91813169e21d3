//! Steps of a node whose first half is made: all that may fail is done, and the node itself hasn't changed yet.

use crate::deed::Deed;
use crate::effect::Effect;
use crate::prepared::{Hearing, Moving, Quiet};
use rambo_gossip::Letter;
use rambo_history::Op;
use rambo_names::Quorums;

/// The first half of what a node does: there is room for it, and what its second half needs is found.
///
/// Most steps send a letter or hear one, so these are small, and what is large is in a box.
#[derive(Drop)]
pub enum Half<Q: Quorums> {
    /// This letter goes out.
    Send(Letter<Q>),
    /// The letter that comes is heard.
    Hear(Hearing),
    /// A call begins.
    Call(Box<Going<Q>>),
    /// A call goes on.
    Advance(Box<Going<Q>>),
    /// Any other.
    Quiet(Quiet<Q>),
}

/// A call that begins or goes on: what is told of it, and what its second half needs.
#[derive(Drop)]
pub struct Going<Q> {
    /// What is told of it: its owner takes the event and the mark to where they belong.
    pub deed: Deed<Q>,
    // What it takes along, if it goes on.
    pub(crate) moving: Moving,
    // What it asks for, if it begins.
    pub(crate) asked: Option<Op>,
}

/// A step whose second half is done: what it leaves to its owner.
#[derive(Drop)]
pub struct Ended<Q: Quorums> {
    /// What is reported. A letter that goes out has no number here: `Done` is reported of it.
    pub effect: Effect<Q>,
    /// The letter that goes out, if one does.
    pub letter: Option<Letter<Q>>,
    /// The call that began or went on, if one did: its event and its mark are to be taken.
    pub going: Option<Box<Going<Q>>>,
}

/// A change that a node may make, for which there is room, and what it will do. It brings along the letter that comes, if one does.
#[derive(Drop)]
pub struct Prepared<Q: Quorums> {
    pub(crate) half: Half<Q>,
    pub(crate) letter: Option<Letter<Q>>,
}
