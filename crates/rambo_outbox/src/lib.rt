//! Who writes to whom, and when: what a node has asked for, who waits for it, whom it owes a letter, and when to look again.
//!
//! - `Outbox`: kept for each node. It knows no lock, no clock and no node: what is open is lent to it (`Opened`), and so is
//!   the time, in milliseconds since any moment.
//! - `Round`: whom a node writes to now, and when to look again at the latest.
//! - `Waiter`: who waits for a call.
//! - `holds_nobody_back`, `somebody_looks_again`, `few_reminders`, `each_has_its_turn`, `only_reached`: what holds of every outbox.
#![tactic(auto)]

mod asking;
mod asks;
mod entry;
mod found;
mod laws;
mod opened;
mod outbox;
mod pauses;
mod round;
mod waiting;

pub use entry::Waiter;
pub use laws::{
    each_has_its_turn, few_reminders, holds_nobody_back, only_reached, somebody_looks_again,
};
pub use opened::{BidStage, Opened};
pub use outbox::Outbox;
pub use round::Round;
