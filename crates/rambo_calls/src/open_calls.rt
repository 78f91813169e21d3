//! The open calls of a node, the oldest first.
ghost use Rattle.std.specs.Prelude.{◌≡◌, ◌<◌, ◌≤◌, ◌++◌, ◌∷◌, [], IsOk, OnOk, IfErr, remove, slice_get, map as list_map};
ghost use Rattle.rambo_calls.specs.Calls.{place_of};
ghost use Rattle.rambo_calls.specs.Hearing.{any_gap, restarted, heard_call};
ghost use Rattle.rambo_calls.specs.Kept.{calls_of, with_call, propagating, IsRoomy};
ghost use Rattle.rambo_phase.specs.Phases.{started};
ghost use Rattle.rambo_calls.specs.declared.stage.Stage.TheVariants.{Query};

use crate::open_call::OpenCall;
use crate::stage::Stage;
use rambo_config_map::ConfigMap;
use rambo_history::Op;
use rambo_names::{Name, Quorums, Refusal};
use rambo_phase::{Heard, Phase};
use rambo_tag::Version;
use std::alloc::Global;
use std::marker::Model;

/// The calls of a node that aren't answered yet, the oldest first. Where several have one number, the first is meant.
pub struct OpenCalls<Q: Quorums> {
    list: Vec<OpenCall<Q>>,
    // Never filled: it tells the prover that an open call has a size, which it doesn't see through a `Vec`.
    spare: Option<OpenCall<Q>>,
}

// By hand, so that those who drop it needn't follow all that is in it.
impl<Q: Quorums> Drop for OpenCalls<Q> {
    fn drop(self) {
        let OpenCalls {
            list: _list,
            spare: _spare,
        } = self;
    }
}

impl<Q: Quorums> Model for OpenCalls<Q> {
    ghost use Rattle.std.specs.Prelude.{◌-◌};
    ghost use Rattle.std.specs.Vec.{vec_len, vec_capacity};
    ghost use Rattle.std.specs.Coded.{codes};
    ghost use Rattle.rambo_names.specs.Names.{names_code};
    ghost use Rattle.rambo_calls.specs.Kept.{KeptCalls};

    ghost Value = { KeptCalls Q };

    ghost coded = { Prim.hlevel (codes, names_code, Q.code) };

    ghost view = { λ c. record { list = c.list.items; room = vec_capacity c.list - vec_len c.list } };
}

impl<Q: Quorums> OpenCalls<Q> {
    /// No call. Later allocations come from this allocator.
    pub fn new(alloc: Global) -> Self
        ensures { result.list ≡ [] }
    {
        OpenCalls {
            list: Vec::new(alloc),
            spare: None,
        }
    }

    /// The calls themselves.
    pub fn as_slice(&self) -> &[OpenCall<Q>]
        ensures { result.now ≡ self.now.list }
    {
        self.list.as_slice()
    }

    /// Makes room for one more call. In either case the calls are unchanged, and no room is lost.
    ///
    /// `OutOfMemory` where there is none.
    pub fn reserve(&mut self) -> Result<(), Refusal>
        ensures same { self.new.list ≡ self.old.list }
        ensures kept { self.old.room ≤ self.new.room }
        ensures ok { OnOk result (0 < self.new.room) }
        ensures refused { IfErr result (λ r. r ≡ Refusal.OutOfMemory) }
    {
        self.list.reserve(1)?;
        Ok(())
    }

    /// Opens a call of this number in its query, where there is room for one more call. Its phase begins under this
    /// phase number with this map, and with the node itself as a replier. It allocates nothing and can't fail.
    pub fn open_reserved(
        &mut self,
        number: u64,
        op: Op,
        phase_number: u64,
        map: &ConfigMap<Q>,
        me: Name,
    )
        requires { 0 < self.old.room }
        ensures { calls_of self.new.list ≡ calls_of self.old.list ++ record { number = number; op = op; stage = Query; phase = started phase_number map.now me } ∷ [] }
    {
        let alloc = *self.list.allocator();
        let place = self.list.len();
        self.list.push_reserved(OpenCall {
            number,
            op,
            stage: Stage::Query,
            phase: Phase::new(alloc),
        });
        // (it begins in place: a phase is large, and to move it copies all of it)
        self.restart(place, phase_number, map, me);
    }

    /// The call at a place propagates a copy, in a phase that begins under this phase number with this map. It
    /// allocates nothing. Where there is no call, nothing changes.
    pub fn propagate(
        &mut self,
        place: usize,
        kept: Option<Version>,
        phase_number: u64,
        map: &ConfigMap<Q>,
        me: Name,
    )
        ensures { calls_of self.new.list ≡ with_call place (slice_get (calls_of self.old.list) place) (propagating kept (started phase_number map.now me)) (calls_of self.old.list) }
    {
        if place >= self.list.len() {
            return;
        }
        self.list[place].propagate(kept, phase_number, map, me);
    }

    /// The phase of the call at a place restarts, under this phase number with this map. It allocates nothing. Where
    /// there is no call, nothing changes.
    pub fn restart(&mut self, place: usize, phase_number: u64, map: &ConfigMap<Q>, me: Name)
        ensures { calls_of self.new.list ≡ with_call place (slice_get (calls_of self.old.list) place) (restarted phase_number map.now me) (calls_of self.old.list) }
    {
        if place >= self.list.len() {
            return;
        }
        self.list[place].restart(phase_number, map, me);
    }

    /// Removes the call at a place, if there is one.
    pub fn close(&mut self, place: usize)
        ensures { calls_of self.new.list ≡ remove (calls_of self.old.list) place }
    {
        if place >= self.list.len() {
            return;
        }
        self.list.remove(place);
    }

    /// Makes room for what a map has above the phases, so that to hear it allocates nothing.
    ///
    /// `OutOfMemory` where there is none; never where the calls have this room already. In either case the calls are
    /// unchanged.
    pub fn make_room(&mut self, map: &ConfigMap<Q>) -> Result<(), Refusal>
        ensures same { calls_of self.new.list ≡ calls_of self.old.list }
        ensures ok { OnOk result (IsRoomy map.now self.new.list) }
        ensures succeeds { IsRoomy map.now self.old.list → IsOk result }
        ensures refused { IfErr result (λ r. r ≡ Refusal.OutOfMemory) }
    {
        make_room(self.list.as_mut_slice(), map)
    }

    /// Hears a letter that has this heard number and map, for which room was made. A call whose phase it replies to
    /// counts the sender, with the configurations that the map has above its own. Where these leave a gap, the phase
    /// restarts, under this number with this merged map (Lynch and Shvartsman, "RAMBO", DISC 2002).
    #[inline(always)]
    pub fn hear(
        &mut self,
        from: Name,
        heard: u64,
        map: &ConfigMap<Q>,
        number: u64,
        merged: &ConfigMap<Q>,
        me: Name,
    )
        requires { IsRoomy map.now self.old.list }
        ensures { calls_of self.new.list ≡ list_map (heard_call heard from map.now number merged.now me) (calls_of self.old.list) }
    {
        hear(
            self.list.as_mut_slice(),
            from,
            heard,
            map,
            number,
            merged,
            me,
        )
    }

    /// The place of the first call of a number, or how many calls there are where none has it.
    pub fn place_of(&self, number: u64) -> usize
        ensures { result ≡ place_of number (calls_of self.now.list) }
    {
        place_of(self.list.as_slice(), number)
    }

    /// Whether a letter with this heard number and map restarts a phase: whether it is a reply whose map leaves a gap.
    pub fn any_gap(&self, heard: u64, map: &ConfigMap<Q>) -> bool
        ensures { result ≡ any_gap heard map.now (calls_of self.now.list) }
    {
        any_gap(self.list.as_slice(), heard, map)
    }
}

fn place_of<Q: Quorums>(calls: &[OpenCall<Q>], number: u64) -> usize
    ensures { result ≡ place_of number (calls_of calls.now) }
{
    let mut count = 0;
    let mut rest = calls;
    while let Some((call, others)) = rest.split_first() {
        if call.number == number {
            return count;
        }
        count += 1;
        rest = others;
    }
    count
}

fn any_gap<Q: Quorums>(calls: &[OpenCall<Q>], heard: u64, map: &ConfigMap<Q>) -> bool
    ensures { result ≡ any_gap heard map.now (calls_of calls.now) }
{
    let mut rest = calls;
    while let Some((call, others)) = rest.split_first() {
        if call.phase.would_hear(heard, map) == Heard::Restart {
            return true;
        }
        rest = others;
    }
    false
}

fn make_room<Q: Quorums>(calls: &mut [OpenCall<Q>], map: &ConfigMap<Q>) -> Result<(), Refusal>
    ensures same { calls_of calls.new ≡ calls_of calls.old }
    ensures ok { OnOk result (IsRoomy map.now calls.new) }
    ensures succeeds { IsRoomy map.now calls.old → IsOk result }
    ensures refused { IfErr result (λ r. r ≡ Refusal.OutOfMemory) }
{
    for call in calls.iter_mut() {
        call.phase.reserve(map)?;
    }
    Ok(())
}

// (for each command of a client of three founders eight letters are heard)
#[inline(always)]
fn hear<Q: Quorums>(
    calls: &mut [OpenCall<Q>],
    from: Name,
    heard: u64,
    map: &ConfigMap<Q>,
    number: u64,
    merged: &ConfigMap<Q>,
    me: Name,
)
    requires { IsRoomy map.now calls.old }
    ensures { calls_of calls.new ≡ list_map (heard_call heard from map.now number merged.now me) (calls_of calls.old) }
{
    for call in calls.iter_mut() {
        call.hear(from, heard, map, number, merged, me);
    }
}
