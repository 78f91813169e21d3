//! The places of lines.
ghost use Rattle.std.specs.Prelude.{◌≡◌, ◌+◌, ◌<◌, ◌^◌};
ghost use Rattle.rambo_lines.specs.Places.{place_of};

use rambo_text::Version;

/// The place of a line of a script.
#[derive(Clone, Copy, PartialEq, Eq, Debug)]
pub struct Place {
    /// The number of the line, from 1, counting the line that gives the version.
    pub line: u64,
    /// The number of the step on the line, from 1, or 0 for the founders.
    pub step: u64,
}

impl Place {
    /// The place of the line with the founders.
    pub fn first(version: Version) -> Place
        ensures { result ≡ place_of version 0 }
    {
        Place {
            line: version.head_lines() + 1,
            step: 0,
        }
    }

    /// The place of the next line.
    pub fn next(self) -> Place
        requires line { self.line + 1 < 2 ^ 64 }
        requires step { self.step + 1 < 2 ^ 64 }
        ensures { result ≡ record { line = self.line + 1; step = self.step + 1 } }
    {
        Place {
            line: self.line + 1,
            step: self.step + 1,
        }
    }
}
