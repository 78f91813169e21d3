//! What is kept of a line.

use crate::order::Order;
use rambo_history::Event;
use rambo_names::Bytes;

/// What is kept of a line that was read.
#[derive(Drop)]
pub(crate) enum Kept {
    /// A call was made or answered.
    Happened(Event),
    /// The calls of a key have an order.
    Ordered(Bytes, Order),
    /// The calls of all keys have an order.
    OrderedAll(Order),
    /// A line that is read for its form alone.
    Nothing,
}
