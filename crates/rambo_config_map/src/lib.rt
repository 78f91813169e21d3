//! Configuration maps: which configuration is in use at which place.
//!
//! No call of a `ConfigMap` allocates, so none is ever out of memory. A row of `Places` allocates only past eight
//! configurations.
#![tactic(auto)]

mod config_map;
mod entry;
mod merging;
mod places;

pub use config_map::ConfigMap;
pub use entry::Entry;
pub use merging::merging_laws;
pub use places::Places;
