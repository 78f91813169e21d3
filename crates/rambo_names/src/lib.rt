//! Names of nodes, sets of names, quorums, refusals, and the bytes of keys and values.
//!
//! - `Name` and `Members`: the 64 nodes, and sets of them.
//! - `Quorums`, `Majority` and `Weighted`: configurations, by their two laws.
//! - `Refusal`: why a step is refused.
//! - `read_num`, `leading_num`, `read_set`, `write_set`, `read_conf`, `write_conf`: numbers, sets and configurations in
//!   texts.
//!
//! - `one_conf`, `even_is_set`: no text is that of two configurations, and which texts are those of sets.
//! - `Bytes`: a key or a value; clones of a long one share its bytes.
#![tactic(auto)]

mod bytes;
mod conf_sign;
mod laws;
mod majority;
mod members;
mod name;
mod quorums;
mod refusal;
mod set_sign;
mod short_bytes;
mod signs;
mod weighted;

pub use bytes::Bytes;
pub use conf_sign::{read_conf, write_conf};
pub use laws::{even_is_set, one_conf};
pub use majority::Majority;
pub use members::Members;
pub use name::Name;
pub use quorums::Quorums;
pub use refusal::Refusal;
pub use set_sign::{read_set, write_set};
pub use signs::{leading_num, read_num};
pub use weighted::Weighted;
