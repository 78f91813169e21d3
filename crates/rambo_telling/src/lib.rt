//! What the program reports to its user, and its exit status then.
//!
//! - `tell`: the line of a fault.
//! - `answer`: what clap gives in place of a task.
//! - `tell_no_text`, `tell_bad_founders`: words that aren't text, and founders that aren't valid.
//! - `tell_mistake`, `tell_failure`: another mistake in the command line, and another failure, in words that the caller has.
//! - `tell_listening`, `tell_socket`: on which port a server listens, or that its socket failed.
//! - `tell_resumed`, `tell_torn`, `tell_refused`: how many steps of a trace a server took, how much of the last line it cut
//!   off, and which of its lines was refused.
#![tactic(auto)]

mod telling;

pub use telling::{
    DONE, answer, tell, tell_bad_founders, tell_failure, tell_listening, tell_mistake,
    tell_no_text, tell_refused, tell_resumed, tell_socket, tell_torn,
};
