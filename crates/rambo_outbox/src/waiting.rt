//! Lists of calls that somebody waits for.
ghost use Rattle.std.specs.Prelude.{◌≡◌, filter, find};
ghost use Rattle.std.specs.List.{list_any};
ghost use Rattle.rambo_outbox.specs.Waiting.{is_of, is_other, is_anothers, is_waited};

use crate::entry::Entry;

// The first entry of a call, if there is one.
pub(crate) fn find(entries: &[Entry], number: u64) -> Option<Entry>
    ensures { result ≡ find (is_of number) entries.now }
{
    entries.iter().find(|entry| entry.number == number).copied()
}

// Whether somebody waits for a call.
pub(crate) fn is_waited(entries: &[Entry], number: u64) -> bool
    ensures { result ≡ is_waited entries.now number }
{
    entries.iter().any(|entry| entry.number == number)
}

// Leaves out the entries of a call.
pub(crate) fn leave_out(entries: &mut Vec<Entry>, number: u64)
    ensures { entries.new.items ≡ filter (is_other number) entries.old.items }
{
    entries.retain(|entry| entry.number != number);
}

// Leaves out the entries of a connection.
pub(crate) fn let_go(entries: &mut Vec<Entry>, client: u32, connection: u32)
    ensures { entries.new.items ≡ filter (is_anothers client connection) entries.old.items }
{
    entries.retain(|entry| entry.who.client != client || entry.who.connection != connection);
}
