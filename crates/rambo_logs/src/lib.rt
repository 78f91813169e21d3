//! The logs of all nodes: of each node the list of the copies that its registers took.
//!
//! Each copy that was put is stored once, and a log is a list of places. For each node and each key the greatest copy
//! in the node's log is noted. So what a node lacks of a part of another's log is found without looking up a key.
#![tactic(auto)]

mod entry;
mod hints;
mod key_numbers;
mod lacked;
mod logs;
mod merged_counts;
mod pending;

pub use logs::Logs;
pub use merged_counts::MergedCounts;
