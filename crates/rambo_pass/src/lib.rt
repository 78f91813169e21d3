//! Passes: what a client has seen of a book, and its own calls.
//!
//! - `Pass`: what one client has seen, and its calls; `Entry`: one of these.
//! - `named`: whose step a step is.
//! - `act_in`, `act_ready_in`, `call_in`, `take_given`, `take_in`, `give_up_in`, `meet_in`: what a client does.
//! - `close_in`: the end, `Closed`; `Left`: what that leaves. `end_in`: the same of a book whose steps are drawn,
//!   `Ended`.
#![tactic(auto)]

mod answer;
mod closing;
mod ending;
mod left;
mod mine;
mod naming;
mod pass;

pub use answer::{give_up_in, take_given, take_in};
pub use closing::{Closed, close_in};
pub use ending::{Ended, end_in};
pub use left::Left;
pub use mine::Entry;
pub use naming::named;
pub use pass::{Pass, act_in, act_ready_in, call_in, meet_in};
