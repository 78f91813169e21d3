//! Why a step was refused.
ghost use Rattle.std.specs.Prelude.{◌≡◌, Some};
ghost use Rattle.rambo_names.specs.declared.refusal.Refusal.TheVariants.{OutOfMemory};

use std::alloc::{AllocError, AllocFailed};
use std::fmt;

/// Why a step was refused. Of several causes the least number is reported.
#[derive(Clone, Copy, PartialEq, Eq, PartialOrd, Ord, Debug)]
pub enum Refusal {
    /// A number names no node: names are 1 to 64.
    NoSuchName = 1,
    /// A node that joins has been used before.
    NameUsed = 2,
    /// A node that acts, or that a letter comes to, is idle; or it is joining, where it would have to be active.
    NotActive = 3,
    /// A node that acts, or that a letter comes to, has stopped.
    Stopped = 4,
    /// A letter goes to a node that its sender doesn't know, or to the sender itself.
    NotKnown = 5,
    /// No letter of this number was sent.
    NoSuchLetter = 6,
    /// No open call has this number.
    NoSuchCall = 7,
    /// A phase isn't met yet.
    NotYet = 8,
    /// A node has 64 open calls.
    Busy = 9,
    /// Only one place is active, so that none can be collected.
    NothingToCollect = 10,
    /// A collection is open already.
    CollectOpen = 11,
    /// No collection is open.
    NoCollect = 12,
    /// A node isn't a member of the configuration at its top.
    NotMember = 13,
    /// An attempt is open already.
    ReconOpen = 14,
    /// No attempt is open for the first unknown place.
    NoRecon = 15,
    /// Eight places are active.
    TooManyActive = 16,
    /// A wish has a member that the node doesn't know.
    UnknownMember = 17,
    /// A set of names is empty.
    EmptyMembers = 18,
    /// A key has more than 256 bytes.
    KeyTooLong = 19,
    /// A value has more than 4,096 bytes.
    ValueTooLong = 20,
    /// A counter that would be raised has its greatest value.
    NumbersSpent = 21,
    /// Out of memory.
    OutOfMemory = 22,
    /// A book has as many steps as it may have.
    HistoryFull = 23,
    /// All 32 passes were given out.
    NoPassLeft = 24,
    /// A letter that was sent isn't kept any more.
    LetterGone = 25,
}

impl Refusal {
    ghost use Rattle.rambo_names.specs.Refusals.{number_of, word_of};

    /// The number of the refusal, 1 to 25.
    pub fn number(self) -> u64
        ensures { result ≡ number_of self }
    {
        self as u64
    }

    /// The word that is printed for the refusal.
    pub fn word(self) -> &'static str
        ensures { result.now ≡ word_of self }
    {
        match self {
            Refusal::NoSuchName => "NoSuchName",
            Refusal::NameUsed => "NameUsed",
            Refusal::NotActive => "NotActive",
            Refusal::Stopped => "Stopped",
            Refusal::NotKnown => "NotKnown",
            Refusal::NoSuchLetter => "NoSuchLetter",
            Refusal::NoSuchCall => "NoSuchCall",
            Refusal::NotYet => "NotYet",
            Refusal::Busy => "Busy",
            Refusal::NothingToCollect => "NothingToCollect",
            Refusal::CollectOpen => "CollectOpen",
            Refusal::NoCollect => "NoCollect",
            Refusal::NotMember => "NotMember",
            Refusal::ReconOpen => "ReconOpen",
            Refusal::NoRecon => "NoRecon",
            Refusal::TooManyActive => "TooManyActive",
            Refusal::UnknownMember => "UnknownMember",
            Refusal::EmptyMembers => "EmptyMembers",
            Refusal::KeyTooLong => "KeyTooLong",
            Refusal::ValueTooLong => "ValueTooLong",
            Refusal::NumbersSpent => "NumbersSpent",
            Refusal::OutOfMemory => "OutOfMemory",
            Refusal::HistoryFull => "HistoryFull",
            Refusal::NoPassLeft => "NoPassLeft",
            Refusal::LetterGone => "LetterGone",
        }
    }
}

impl fmt::Display for Refusal {
    ghost use Rattle.rambo_names.specs.Refusals.{word_of};

    ghost output = { λ r. Some (word_of r) };

    fn fmt<W: fmt::Write>(&self, f: &mut fmt::Formatter<W>) -> fmt::Result {
        let word = self.word();
        write!(f, "{word}")
    }
}

impl From<AllocError> for Refusal {
    ghost from_gives = { λ _ r. r ≡ OutOfMemory };

    fn from(_e: AllocError) -> Refusal {
        Refusal::OutOfMemory
    }
}

impl<T: Drop> From<AllocFailed<T>> for Refusal {
    ghost from_gives = { λ _ r. r ≡ OutOfMemory };

    fn from(_e: AllocFailed<T>) -> Refusal {
        Refusal::OutOfMemory
    }
}
