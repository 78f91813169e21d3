//! Versions of texts.
ghost use Rattle.std.specs.Prelude.{◌≡◌, IfOk, IfErr};
ghost use Rattle.rambo_text.specs.Versions.{head_lines as head_lines_of, IsFirstOf, IsBadHead};

use crate::fault::Fault;
use crate::words::{next_word, one_word};

/// The version of a script, or of the text of an outcome.
#[derive(Clone, Copy, PartialEq, Eq, Debug)]
pub enum Version {
    /// A text without a line for its version.
    One = 1,
    /// A text after the line `rambo 2`. An outcome has one order of the calls of all keys.
    Two = 2,
}

impl Version {
    /// The version that the first line of a text tells: `One` where the line's first word isn't `rambo`.
    ///
    /// `WrongCount` where other than one word follows that word, and `BadNumber` where the one that does isn't `2`.
    pub fn told_by(line: &[u8]) -> Result<Version, Fault>
        ensures found { IfOk result (λ version. IsFirstOf version line.now) }
        ensures fault { IfErr result (λ f. IsBadHead line.now f) }
    {
        let (word, more) = next_word(line);
        if word != b"rambo".as_slice() {
            return Ok(Version::One);
        }
        let Some(number) = one_word(more) else {
            return Err(Fault::WrongCount);
        };
        if number != b"2".as_slice() {
            return Err(Fault::BadNumber);
        }
        Ok(Version::Two)
    }

    /// How many lines give the version: none of version 1, and one of version 2.
    pub fn head_lines(self) -> u64
        ensures { result ≡ head_lines_of self }
    {
        match self {
            Version::One => 0,
            Version::Two => 1,
        }
    }
}
