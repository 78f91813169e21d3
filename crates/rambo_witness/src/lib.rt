//! What shows that an order of calls doesn't explain a history (Herlihy and Wing, "Linearizability", TOPLAS 1990).
//!
//! - `Witness`: the call that breaks a rule, and the other one that it breaks the rule with.
//! - `Witnesses`: finds the first witness that an order breaks a rule of a proper one.
//! - `is_of`: whether an operation is one of those that an order is to explain.
//! - `witness_shows`, `no_is_broken`, `one_witness`: laws of witnesses.
#![tactic(auto)]

mod dues;
mod laws;
mod missing;
mod out_of_order;
mod repeated;
mod scope;
mod stranger;
mod witness;
mod witnesses;
mod wrong_answer;

pub use laws::{no_is_broken, one_witness, witness_shows};
pub use scope::is_of;
pub use witness::Witness;
pub use witnesses::Witnesses;
