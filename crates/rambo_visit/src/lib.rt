//! A visit of a node: one thread does all that is to be done there.
//!
//! - `visit_in`: borrows a keeper and its node's outbox, takes all steps that the node may take by itself, and writes the
//!   letters that the outbox then wants. The book is locked for each step separately.
//! - `Visited`: the result of a visit.
//! - `opened`: what an outbox reads of a node.
//! - `came_by`, `note`: record a step that was taken outside a visit in the outbox.
#![tactic(auto)]

mod advancing;
mod entering;
mod hearing;
mod noting;
mod opening;
mod unloading;
mod visit;
mod writing;

pub use noting::{came_by, note};
pub use opening::opened;
pub use visit::{Visited, visit_in};
