//! What is true of every command.
ghost use Rattle.rambo_commands.specs.Laws.{AsksOnce};

/// Each command of a server's client asks for one thing alone.
pub fn one_request()
    ensures { AsksOnce }
{}
