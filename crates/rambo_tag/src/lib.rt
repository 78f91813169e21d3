//! Tags, copies of a key's value, and the copies that a node holds.
#![tactic(auto)]

mod borrowed_key;
mod keyed_version;
mod merging;
mod pack;
mod registers;
mod replica;
mod slot;
mod stamping;
mod tag;
mod version;

pub use keyed_version::KeyedVersion;
pub use merging::merging_laws;
pub use pack::Pack;
pub use registers::Registers;
pub use replica::Replica;
pub use stamping::stamp_laws;
pub use tag::Tag;
pub use version::Version;
