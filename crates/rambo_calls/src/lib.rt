//! The calls of a node that aren't answered yet.
#![tactic(auto)]

mod open_call;
mod open_calls;
mod stage;

pub use open_call::OpenCall;
pub use open_calls::OpenCalls;
pub use stage::Stage;
