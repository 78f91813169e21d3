//! How long is waited before what was asked for is asked for again.
ghost use Rattle.std.specs.Prelude.{◌≡◌, ◌≤◌};
ghost use Rattle.rambo_outbox.specs.Pauses.{pause, rebid_pause, later, more, patience};

use rambo_names::Name;

// All times are in milliseconds.

// The first pause, the number of reminders up to which it stays, and the longest one.
const FIRST: u64 = 20;

const TIMES: u64 = 49;

const LONGEST: u64 = 1000;

// How often a pause doubles, until it is the longest one.
const DOUBLINGS: u64 = 6;

// The pause after a number of reminders: 20 ms for a second, and then twice as long each time, up to a second.
pub(crate) fn pause(stood: u64) -> u64
    ensures { result ≡ pause stood }
{
    let doublings = stood.saturating_sub(TIMES).min(DOUBLINGS);
    (FIRST << doublings).min(LONGEST)
}

// How long the n-th bid of an attempt is left alone at least: 40 ms, and then twice as long each time, up to a second.
pub(crate) fn rebid_pause(bids: u64) -> u64
    ensures { result ≡ rebid_pause bids }
{
    (2 * FIRST << bids.min(DOUBLINGS - 1)).min(LONGEST)
}

// One more, up to the greatest number.
pub(crate) fn more(count: u64) -> u64
    ensures { result ≡ more count }
{
    count.saturating_add(1)
}

// A time after a pause, up to the greatest one.
pub(crate) fn later(now: u64, pause: u64) -> u64
    ensures { result ≡ later now pause }
{
    now.saturating_add(pause)
}

// How long a bid is left alone: for two reminders, and longer each time. Each node adds its own number, so that no two
// wait equally long.
pub(crate) fn patience(stood: u64, bids: u64, me: Name) -> u64
    ensures { result ≡ patience stood bids me }
{
    (pause(stood) + pause(more(stood))).max(rebid_pause(bids)) + me.number()
}
