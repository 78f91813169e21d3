//! What a command of a client asks for, and how it is answered, whoever serves it.
//!
//! - `Request`: what each client may ask for: a reply, or an operation of the store.
//! - `ServerRequest`: what a client of a server may ask for, which may also change the members and end the server.
//! - `telling`, `refusal_reply`, `fault_reply`, `map_reply`: the replies to an answer, a refusal and a fault, and the
//!   one with a map.
//! - `report_reply`: the one with a report on the server.
//! - `append_reply`, `append_refusal`: replies appended to others.
//! - `one_request`: a law of commands.
#![tactic(auto)]

mod administration;
mod arguments;
mod laws;
mod mistake;
mod replies;
mod report;
mod request;
mod server_request;
mod words;

pub use laws::one_request;
pub use replies::{append_refusal, append_reply, fault_reply, map_reply, refusal_reply, telling};
pub use report::{Report, report_reply};
pub use request::Request;
pub use server_request::ServerRequest;
