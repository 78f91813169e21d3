//! One node of the store: its copies, its map, its open calls, and what it makes of steps.
//!
//! - `StepOf`: one event. A run's is a `Step`, a node's own a `Change`.
//! - `Node::{judge, begin, end}`: why a node refuses one, and its two halves. `Node::ready` and `Node::finish` are these of a change,
//!   and calls like `Node::join` each of one kind.
#![tactic(auto)]

mod advancing;
mod carried;
mod decided;
mod deed;
mod effect;
mod finishing;
mod half;
mod halves;
mod heard_numbers;
mod hearing;
mod judging;
mod judging_turns;
mod laws;
mod node;
mod prepared;
mod readying;
mod reconfiguring;
mod step;
mod taking;
mod turns;
mod workspace;

pub use decided::Decided;
pub use deed::Deed;
pub use effect::Effect;
pub use half::{Ended, Going, Half, Prepared};
pub use laws::changing_laws;
pub use node::Node;
pub use prepared::{Found, Hearing, Moving, Quiet};
pub use rambo_calls::Stage;
pub use step::{Change, Step, StepOf, quiet_of};
pub use workspace::Workspace;
