//! Signs and words of texts: how numbers, names, calls and bytes are written and read, and the faults of texts.
//!
//! - `Fault`, `ScriptFault` and `ReplayFault`: what is wrong with a text, in which line, and why nothing was made of it.
//! - `write_num`, `write_name`, `write_call`, `write_hex`, `write_standing`: the one spelling of each sign.
//! - `push_call`, `push_hex`, `push_bytes`: the same into a text that has room, which allocates nothing.
//! - `read_name`, `read_call`, `read_hex`, `read_standing`: the inverses.
//! - `leading_num`, `leading_name`, `leading_call`, `leading_hex`: the sign that a line begins with, and what follows
//!   it.
//! - `Version`: texts have two, and the first line says which.
//! - `next_line`, `next_word`, `one_word`, `two_words`, `three_words`: lines of a text, and words of a line.
#![tactic(auto)]

mod digits;
mod fault;
mod lanes;
mod leading;
mod numbers;
mod reading;
mod version;
mod words;
mod writing;

pub use fault::{Fault, ReplayFault, ScriptFault};
pub use leading::{leading_call, leading_name};
pub use rambo_names::leading_num;
pub use reading::{leading_hex, read_call, read_hex, read_name, read_standing};
pub use version::Version;
pub use words::{next_line, next_word, one_word, three_words, two_words};
pub use writing::{
    push_bytes, push_call, push_hex, write_call, write_hex, write_name, write_num, write_standing,
};
