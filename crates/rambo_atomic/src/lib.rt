//! Which orders explain a history, and the streams that texts come from and go to.
#![tactic(auto)]

mod checker;
mod checking;
mod findings;
mod held;
mod repeats;
mod rules;
mod scope;
mod stream;
mod tape;
mod unread;
mod verdict;
mod whole;
mod wrapped;

pub use checker::Checker;
pub use checking::{check, check_all};
pub use rambo_history::{Answer, CallId, Event, History, HistoryFault, Op};
pub use stream::{Failed, READ_LIMIT, Sink, Source};
pub use tape::Tape;
pub use unread::Unread;
pub use verdict::{Rule, Verdict};
pub use whole::{StreamFault, read_all, write_all};
pub use wrapped::{Reader, Wrapped, Writer};
