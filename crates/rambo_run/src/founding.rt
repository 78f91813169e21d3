//! Whom a store may be founded by.
ghost use Rattle.std.specs.Prelude.{◌≡◌, None, Some, OnOk, IfErr};
ghost use Rattle.rambo_names.specs.Refusals.{least};
ghost use Rattle.rambo_run.specs.Worlds.{founding_causes};

use rambo_names::{Quorums, Refusal};

/// Why there can be no store of these founders, if there can't.
///
/// `EmptyMembers` where there is no founder.
pub fn may_found<Q: Quorums>(founders: Q) -> Result<(), Refusal>
    ensures ok { OnOk result (least (founding_causes Q.system founders) ≡ None) }
    ensures refused { IfErr result (λ r. least (founding_causes Q.system founders) ≡ Some r) }
{
    if founders.members().count() == 0 {
        return Err(Refusal::EmptyMembers);
    }
    Ok(())
}
