//! How many passes a book has given.
ghost use Rattle.std.specs.Prelude.{◌≡◌, ◌+◌, ◌<◌, ◌≤◌, OnOk, OnErr, IfErr};

use rambo_names::Refusal;

// So many clients there are at most.
const MOST: u64 = 32;

/// How many passes were counted.
#[derive(Clone, Copy)]
pub(crate) struct Passes {
    count: u64,
}

impl Passes {
    /// None was.
    pub(crate) fn none() -> Passes
        ensures { result ≡ record { count = 0 } }
    {
        Passes { count: 0 }
    }

    /// Counts one more. `NoPassLeft` where there are 32.
    pub(crate) fn count_one(&mut self) -> Result<(), Refusal>
        ensures counted { OnOk result ((self.old.count < 32) × (self.new ≡ record { count = self.old.count + 1 })) }
        ensures same { OnErr result ((32 ≤ self.old.count) × (self.new ≡ self.old)) }
        ensures refused { IfErr result (λ r. r ≡ Refusal.NoPassLeft) }
    {
        if self.count >= MOST {
            return Err(Refusal::NoPassLeft);
        }
        self.count += 1;
        Ok(())
    }
}
