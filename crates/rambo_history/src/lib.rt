//! Calls, their answers, and histories of both; what a proper order of calls is.
//!
//! - `Op`, `Answer`: what a call asks, and how it is answered. `CallId`: which call it is.
//! - `History`: the calls and answers of a run, in order.
#![tactic(auto)]

mod call_list;
mod call_places;
mod entry;
mod event;
mod fault;
mod history;
mod operation;
mod spot;

pub use entry::Entry;
pub use event::{CallId, Event};
pub use fault::HistoryFault;
pub use history::History;
pub use operation::{Answer, Op};
pub use spot::Spot;
