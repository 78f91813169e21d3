//! The status of a node.
ghost use Rattle.std.specs.Prelude.{◌≡◌, ◌⊎◌, true, false, IfErr, OnOk, OnErr};
ghost use Rattle.rambo_joiner.specs.Statuses.{is_idle, is_early, is_stopped, is_active, woken};

use rambo_names::Refusal;

/// Whether a node takes part. It goes from idle to joining, active and stopped, and never back.
#[derive(Clone, Copy, PartialEq, Eq, Debug)]
pub enum Status {
    /// Its name was not used yet.
    Idle,
    /// It asks its contacts, and no active node answered yet.
    Joining,
    /// It takes part.
    Active,
    /// It never changes again.
    Stopped,
}

impl Status {
    /// Whether the node's name was not used yet.
    pub fn is_idle(self) -> bool
        ensures { result ≡ is_idle self }
    {
        matches!(self, Status::Idle)
    }

    /// Whether the node isn't active yet: it is idle or joining.
    pub fn is_early(self) -> bool
        ensures { result ≡ is_early self }
    {
        matches!(self, Status::Idle | Status::Joining)
    }

    /// Whether the node takes part.
    pub fn is_active(self) -> bool
        ensures { result ≡ is_active self }
    {
        matches!(self, Status::Active)
    }

    /// Whether the node has stopped.
    pub fn is_stopped(self) -> bool
        ensures { result ≡ is_stopped self }
    {
        matches!(self, Status::Stopped)
    }

    /// An idle node begins to join.
    ///
    /// `NameUsed` where it isn't idle; the status is then unchanged.
    pub fn join(&mut self) -> Result<(), Refusal>
        ensures ok { OnOk result ((is_idle self.old ≡ true) × (self.new ≡ Status.Joining)) }
        ensures refused { IfErr result (λ r. (r ≡ Refusal.NameUsed) × (is_idle self.old ≡ false)) }
        ensures err { OnErr result (self.new ≡ self.old) }
    {
        if *self != Status::Idle {
            return Err(Refusal::NameUsed);
        }
        *self = Status::Joining;
        Ok(())
    }

    /// A joining node hears from an active one, and becomes active. Any other status is unchanged.
    pub fn wake(&mut self)
        ensures { self.new ≡ woken self.old }
    {
        if *self == Status::Joining {
            *self = Status::Active;
        }
    }

    /// A node stops, joining or active.
    ///
    /// `NotActive` where it is idle, `Stopped` where it has stopped; the status is then unchanged.
    pub fn stop(&mut self) -> Result<(), Refusal>
        ensures ok { OnOk result ((is_idle self.old ≡ false) × (is_stopped self.old ≡ false) × (self.new ≡ Status.Stopped)) }
        ensures refused { IfErr result (λ r. ((r ≡ Refusal.NotActive) × (is_idle self.old ≡ true)) ⊎ ((r ≡ Refusal.Stopped) × (is_stopped self.old ≡ true))) }
        ensures err { OnErr result (self.new ≡ self.old) }
    {
        match *self {
            Status::Idle => Err(Refusal::NotActive),
            Status::Stopped => Err(Refusal::Stopped),
            Status::Joining | Status::Active => {
                *self = Status::Stopped;
                Ok(())
            }
        }
    }

    /// Whether the node may act.
    ///
    /// `NotActive` where it is idle or joining, `Stopped` where it has stopped.
    pub fn need_active(&self) -> Result<(), Refusal>
        ensures ok { OnOk result (is_active self.now ≡ true) }
        ensures refused { IfErr result (λ r. ((r ≡ Refusal.NotActive) × (is_early self.now ≡ true)) ⊎ ((r ≡ Refusal.Stopped) × (is_stopped self.now ≡ true))) }
    {
        match *self {
            Status::Idle | Status::Joining => Err(Refusal::NotActive),
            Status::Stopped => Err(Refusal::Stopped),
            Status::Active => Ok(()),
        }
    }
}
