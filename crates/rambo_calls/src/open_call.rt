//! Open calls.
ghost use Rattle.std.specs.Prelude.{◌≡◌, ◌≤◌};
ghost use Rattle.rambo_phase.specs.Phases.{needed, started};
ghost use Rattle.rambo_calls.specs.Hearing.{heard_call, restarted};
ghost use Rattle.rambo_calls.specs.Kept.{call_of, propagating};

use crate::stage::Stage;
use rambo_config_map::ConfigMap;
use rambo_history::Op;
use rambo_names::{Name, Quorums};
use rambo_phase::{Heard, Phase};
use rambo_tag::Version;

/// A call that isn't answered yet.
#[derive(Drop)]
pub struct OpenCall<Q: Quorums> {
    /// Its number within the node.
    pub number: u64,
    /// What it asks for.
    pub op: Op,
    /// How far it is.
    pub stage: Stage,
    /// Its current phase.
    pub phase: Phase<Q>,
}

impl<Q: Quorums> OpenCall<Q> {
    // Propagates a copy, in a phase that begins under this number with this map.
    pub(crate) fn propagate(
        &mut self,
        kept: Option<Version>,
        number: u64,
        map: &ConfigMap<Q>,
        me: Name,
    )
        ensures { call_of self.new ≡ propagating kept (started number map.now me) (call_of self.old) }
    {
        self.stage = Stage::Propagation(kept);
        self.phase.begin(number, map, me);
    }

    // Begins its current phase anew, under this number with this map.
    pub(crate) fn restart(&mut self, number: u64, map: &ConfigMap<Q>, me: Name)
        ensures { call_of self.new ≡ restarted number map.now me (call_of self.old) }
    {
        self.phase.begin(number, map, me);
    }

    // Hears a letter that has this heard number and map, for which there is room, and restarts where it has to: under
    // this number, with this merged map.
    pub(crate) fn hear(
        &mut self,
        from: Name,
        heard: u64,
        map: &ConfigMap<Q>,
        number: u64,
        merged: &ConfigMap<Q>,
        me: Name,
    )
        requires { needed self.old.phase.state map.now ≤ self.old.phase.capacity }
        ensures { call_of self.new ≡ heard_call heard from map.now number merged.now me (call_of self.old) }
    {
        match self.phase.hear(from, heard, map) {
            Ok(Heard::Restart) => self.phase.begin(number, merged, me),
            Ok(Heard::Counted) => {}
            Ok(Heard::Old) => {}
            Err(_) => unreachable!(),
        }
    }
}
