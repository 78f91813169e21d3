//! Orders of calls.

use rambo_history::CallId;
use std::marker::Model;

/// An order of calls.
#[derive(Drop, Debug)]
pub(crate) struct Order {
    pub(crate) calls: Vec<CallId>,
}

impl Model for Order {
    ghost use Rattle.std.specs.Prelude.{List};
    ghost use Rattle.rambo_history.specs.declared.event.CallId.{CallId};

    ghost Value = { List CallId };

    ghost view = { λ o. o.calls.items };
}

/// An order, and the number of the line that tells it.
#[derive(Drop, Debug)]
pub(crate) struct Placed {
    pub(crate) order: Order,
    pub(crate) line: u64,
}
