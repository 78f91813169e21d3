//! What is wished for.
ghost use Rattle.std.specs.Prelude.{◌≡◌};
ghost use Rattle.rambo_outbox.specs.Found.{nothing_found, found_one};

/// What was found of phases that are wished for.
#[derive(Clone, Copy, Debug)]
pub(crate) struct Found {
    /// Whether there is one.
    pub(crate) is_some: bool,
    /// Whether there is one that was asked for.
    pub(crate) is_under_way: bool,
    /// The greatest number of them, or 0.
    pub(crate) greatest: u64,
}

impl Found {
    /// None was found.
    pub(crate) fn nothing() -> Found
        ensures { result ≡ nothing_found }
    {
        Found {
            is_some: false,
            is_under_way: false,
            greatest: 0,
        }
    }

    /// A phase of this number was found. Those up to another number were asked for.
    pub(crate) fn add(&mut self, asked: u64, number: u64)
        ensures { self.new ≡ found_one asked self.old number }
    {
        self.is_some = true;
        self.is_under_way = self.is_under_way || number <= asked;
        self.greatest = self.greatest.max(number);
    }
}
