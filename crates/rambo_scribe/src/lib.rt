//! The steps of an endless post are written to a trace as they are done.
//!
//! - `Scribe`: what one thread has drawn, and the writer to which just that was written.
//! - `Written`: the trace of a post that has ended; `TraceFault`: why it isn't whole.
//! - `Kept`: steps whose trace the writer's medium keeps, so that who was shown no others may have replies.
//! - `Starts`: what a writer had taken before, and whether replies wait for its medium.
#![tactic(auto)]

mod fault;
mod kept;
mod metered;
mod scribe;
mod starts;
mod writing;
mod written;

pub use fault::TraceFault;
pub use kept::Kept;
pub use scribe::Scribe;
pub use starts::Starts;
pub use written::Written;
