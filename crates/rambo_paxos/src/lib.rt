//! Single-decree Paxos, by which nodes agree on the next configuration (Lamport, "Paxos Made Simple", 2001).
//!
//! - `Ballot`: rounds of a node, in one order.
//! - `Offer` and `Vote`: what a proposer asks of an acceptor, and what the acceptor has promised and accepted.
//! - `Attempt` and `Bid`: a proposer's attempt to have a configuration chosen.
//! - `one_configuration_is_chosen`: the law of votes and attempts.
#![tactic(auto)]

mod attempt;
mod ballot;
mod bid;
mod laws;
mod offer;
mod proposal;
mod stage;
mod vote;

pub use attempt::Attempt;
pub use ballot::Ballot;
pub use bid::Bid;
pub use laws::one_configuration_is_chosen;
pub use offer::Offer;
pub use proposal::Proposal;
pub use vote::Vote;
