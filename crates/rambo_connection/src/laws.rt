//! What is true of every connection.
ghost use Rattle.rambo_connection.specs.Laws.{RepliesInOrder, NothingBehindTheEnd};

/// Whatever happens to a connection, what was written and what waits to be written are the spellings of the replies to
/// its commands. There is one for each that was taken on but the one in progress, in the order of its stream. Then
/// comes the reply to the fault of the stream, if it was written. Each reply is the one that came while its command was
/// in progress, or the connection's own; or there was no memory for it, and the reply is a refusal.
pub fn replies_in_order()
    ensures { RepliesInOrder }
{}

/// Once a connection ends, after the reply to a fault of its stream or to `SHUTDOWN`, no command is taken on and
/// nothing more is reported, whatever happens.
pub fn nothing_behind_the_end()
    ensures { NothingBehindTheEnd }
{}
