//! RESP2, which redis clients speak: commands are read from a stream however it is cut, and replies are written.
//!
//! - `Decoder`: takes a stream piece by piece, and gives its commands.
//! - `Command`: the items of a command.
//! - `BriefCommand`: the same of a command that lies in a piece of the stream.
//! - `Fault`: what is wrong with a stream.
//! - `Reply`, `write_reply`: how a command is answered.
//!
//! RESP is defined at <https://redis.io/docs/latest/develop/reference/protocol-spec/>. Commands are arrays of bulk
//! strings; inline commands aren't taken.
#![tactic(auto)]

mod awaited;
mod brief_command;
mod command;
mod decoder;
mod fault;
mod front;
mod laws;
mod progress;
mod reply;

pub use brief_command::BriefCommand;
pub use command::Command;
pub use decoder::Decoder;
pub use fault::Fault;
pub use laws::{any_cutting, commands_stay, each_stream_is_read, one_reading, within_limits};
pub use reply::{Reply, write_reply};
