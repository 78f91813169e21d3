//! The mail of a book: which letters wait for which name, in the order in which they were sent, and which are lost or come
//! twice.
//!
//! - `Mails`: what waits for each name.
//! - `Entry`: a letter that waits, and whether it asks for one in return.
//! - `Posting`: what a step means for the mail.
//! - `Mail`: a letter that an addressee has taken into its tray, with its number.
#![tactic(auto)]

mod entry;
mod mail;
mod mails;
mod posting;
mod queue;

pub use entry::Entry;
pub use mail::Mail;
pub use mails::Mails;
pub use posting::Posting;
