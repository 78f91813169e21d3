//! Keepers of nodes, and the book of all steps.
//!
//! - `Book`: all steps, with the letters that were sent last, and what is kept of the calls and answers; `Keeper`: a node and
//!   what it has seen.
//! - `commit`: a step goes into the book, and its node takes it; `may_commit`: why not.
//! - `ready` and `commit_ready`: the same in two halves, of which the first needs no book; `Ready::asking`: its letter asks for
//!   one in return.
//! - `see_all`, `take_mail`, `take_letter`: what a keeper takes from the book.
//! - `Counts`: how much a book holds.
//! - `Terms`: which founders a post has, how many steps it takes, whether these may be drawn, and which letters are lost or
//!   come twice.
#![tactic(auto)]

mod book;
mod closing;
mod committing;
mod counts;
mod drawing;
mod finishing;
mod first_half;
mod forgetting;
mod fronts;
mod keeper;
mod letters;
mod mail;
mod open_calls;
mod passes;
mod readied;
mod record;
mod terms;

pub use book::Book;
pub use committing::{commit, commit_ready, may_commit};
pub use counts::Counts;
pub use first_half::ready;
pub use keeper::{Actor, Keeper};
pub use mail::{see_all, take_letter, take_mail};
pub use readied::Ready;
pub use terms::Terms;
