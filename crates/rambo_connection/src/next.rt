//! What there is to do for a connection.

use rambo_commands::ServerRequest;

/// What there is to do for a connection.
#[derive(Drop)]
pub enum Next {
    /// The server is asked for this, at the node that the connection uses. The connection waits for the reply.
    Asks(ServerRequest),
    /// A command was replied to. There may be another one.
    Replied,
    /// Nothing, until more bytes come, the reply to the command under way comes, or more replies are written.
    Waits,
    /// It is closed once its replies are written.
    Ends,
    /// The same, and the server ends.
    EndsAll,
}
