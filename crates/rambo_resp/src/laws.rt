//! What is true of every stream.
ghost use Rattle.rambo_resp.specs.Laws.{EachIsRead, OneReading, AnyCutting, CommandsStay, WithinLimits};

/// Each stream of bytes reads as some commands and an end: an open rest, or a fault and its place.
pub fn each_stream_is_read()
    ensures { EachIsRead }
{}

/// A stream reads as nothing else.
pub fn one_reading()
    ensures { OneReading }
{}

/// What a decoder gives depends on the stream and on how many commands it has given, and not on how the stream was cut.
pub fn any_cutting()
    ensures { AnyCutting }
{}

/// The commands of a stream stay the same when more bytes come.
pub fn commands_stay()
    ensures { CommandsStay }
{}

/// Each command of a stream has 1 to 128 items of at most 4,096 bytes.
pub fn within_limits()
    ensures { WithinLimits }
{}
