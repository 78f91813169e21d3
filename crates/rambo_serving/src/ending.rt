//! How a command ended.
ghost use Rattle.std.specs.Prelude.{◌≡◌, None};

/// How a command ended.
#[derive(Clone, Copy, PartialEq, Eq, Debug)]
pub struct Ending {
    /// The exit status.
    pub status: u8,
    /// How many steps the trace has that was written; none where none was written whole.
    pub trace: Option<usize>,
}

impl Ending {
    /// With this status, and without a trace.
    pub fn of(status: u8) -> Ending
        ensures { result ≡ record { status = status; trace = None } }
    {
        Ending {
            status,
            trace: None,
        }
    }
}
