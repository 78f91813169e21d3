//! The founders of a world.
ghost use Rattle.std.specs.Prelude.{◌≡◌, [], IfOk};

use crate::cluster::Host;
use rambo_config_map::Entry;
use rambo_names::{Name, Refusal, Weighted};

/// The founders of a new world, whose nodes all hold them at place 0.
pub(crate) fn founders_of(world: &Host) -> Result<Weighted, Refusal>
    requires { world.now.steps ≡ [] }
    ensures { IfOk result (λ founders. founders ≡ world.now.founders) }
{
    match world.map(Name::new(1)?).entry(0) {
        Entry::Active(founders) => Ok(founders),
        _ => Err(Refusal::NotActive),
    }
}
