//! How a node has the next configuration chosen (Lamport, "Paxos Made Simple", 2001): what it offers, what it makes of
//! others' votes and offers, when it may begin and advance.
//!
//! An attempt and a vote are for one place. Here they are combined with a map, which says what the first unknown place
//! is.
#![tactic(auto)]

mod hearing;
mod judging;
mod places;

pub use hearing::{hear_offer, hear_vote, offer_of};
pub use judging::{is_bidding, is_waiting, may_wish};
pub use places::{active_at, is_known, top_of};
