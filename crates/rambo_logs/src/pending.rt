//! What room was made for.

use rambo_names::Name;

// What the logs have room for.
#[derive(Clone, Copy)]
pub(crate) enum Pending {
    Nothing,
    // One copy of the key of this number, in the log of a node.
    Put(Name, usize),
    // The copies that a node lacks, in its log.
    TakeOn(Name),
}
