//! Collections: how a node has the oldest configuration removed, once the next one is in use (Lynch and Shvartsman,
//! "RAMBO", DISC 2002).
//!
//! Nothing here allocates.
#![tactic(auto)]

mod collection;
mod gc_move;
mod laws;
mod stage;

pub use collection::Collection;
pub use gc_move::GcMove;
pub use laws::collecting_laws;
pub use stage::Stage;
