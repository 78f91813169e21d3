//! Nodes.
ghost use Rattle.std.specs.Prelude.{◌≡◌, false, slice_get};
ghost use Rattle.std.specs.FinMap as map;
ghost use Rattle.std.specs.Option.{option_copied};
ghost use Rattle.rambo_node.specs.FullNodes.{first_beside};
ghost use Rattle.rambo_node.specs.Nodes.{first_node, first_status, first_known, open_call};
ghost use Rattle.rambo_calls.specs.Calls.{place_of, is_missing, query_in};
ghost use Rattle.rambo_calls.specs.Kept.{call_found, calls_of};

use crate::heard_numbers::HeardNumbers;
use rambo_calls::{OpenCall, OpenCalls, Stage};
use rambo_config_map::ConfigMap;
use rambo_gc::Collection;
use rambo_history::{CallId, Op};
use rambo_joiner::Status;
use rambo_names::{Members, Name, Quorums};
use rambo_paxos::{Attempt, Vote};
use rambo_tag::Replica;
use std::alloc::Global;
use std::marker::Model;

/// One node: its status, the names that it knows, its copies and its configuration map. It has its phase number, the
/// phase numbers that it heard of others, and its open calls. It also has its attempt for the next configuration, its
/// vote, and its collection of the oldest one.
///
/// So that a letter may leave out what its addressee holds, each copy has a stamp and each name a base. A stamp is the
/// phase number before the change that put or merged the copy. A base is the greatest phase number of the node that
/// letters of the name carried as heard.
///
/// All that happens to it is a `Change`. One that is refused leaves the node as it was. Of several causes of a refusal
/// the least number is reported, and `OutOfMemory` only where there is no other.
pub struct Node<Q: Quorums, S: Replica> {
    pub(crate) name: Name,
    pub(crate) status: Status,
    pub(crate) known: Members,
    pub(crate) number: u64,
    pub(crate) made: u64,
    pub(crate) heard: HeardNumbers,
    pub(crate) bases: HeardNumbers,
    pub(crate) collection: Option<Collection>,
    pub(crate) registers: S,
    pub(crate) vote: Vote<Q>,
    pub(crate) attempt: Option<Attempt<Q>>,
    pub(crate) calls: OpenCalls<Q>,
    pub(crate) map: ConfigMap<Q>,
}

// By hand, so that those who drop it needn't follow all that is in it.
impl<Q: Quorums, S: Replica> Drop for Node<Q, S> {
    fn drop(self) {
        let Node {
            name: _name,
            status: _status,
            known: _known,
            number: _number,
            made: _made,
            heard: _heard,
            bases: _bases,
            collection: _collection,
            registers: _registers,
            vote: _vote,
            attempt: _attempt,
            calls: _calls,
            map: _map,
        } = self;
    }
}

impl<Q: Quorums, S: Replica> Model for Node<Q, S> {
    ghost use Rattle.std.specs.Coded.{codes};
    ghost use Rattle.rambo_names.specs.Names.{names_code};
    ghost use Rattle.rambo_tag.specs.Copies.{copies_code};
    ghost use Rattle.rambo_tag.specs.Stamps.{stamps_code};
    ghost use Rattle.rambo_node.specs.Nodes.{RoomyNode};

    ghost Value = { RoomyNode Q };

    ghost coded = { Prim.hlevel (codes, names_code, copies_code, stamps_code, Q.code) };

    ghost use Rattle.rambo_calls.specs.Kept.{calls_of};
    ghost use Rattle.rambo_bids.specs.Fitting.{AttemptFits};
    ghost use Rattle.rambo_tag.specs.Stamps.{AreAtMost};

    ghost view = { λ n. record {
      state = record {
        name = n.name;
        status = n.status;
        known = n.known;
        registers = S.copies n.registers;
        map = n.map;
        number = n.number;
        made = n.made;
        heard = n.heard;
        calls = calls_of n.calls.list;
        collection = n.collection;
        attempt = n.attempt;
        vote = n.vote;
      };
      room = record { keys = S.spare n.registers; calls = n.calls };
      beside = record { stamps = S.stamps n.registers; bases = n.bases };
    } };

    ghost invariant = { λ n. AttemptFits n.map n.attempt × AreAtMost n.number (S.stamps n.registers) };
}

impl<Q: Quorums, S: Replica> Node<Q, S> {
    /// A node of this name in a store of these founders: active if it is one of them, else idle. It holds the
    /// founders at place 0.
    ///
    /// Its registers have to be empty: nothing is stamped, and no letter has raised a base.
    #[tactic(auto, unfolding(crate::specs::Nodes::first_node))]
    pub fn new(alloc: Global, name: Name, founders: Q, registers: S) -> Node<Q, S>
        requires copies { S.copies registers ≡ map.empty }
        requires stamps { S.stamps registers ≡ map.empty }
        ensures state { result.state ≡ first_node Q.system founders name }
        ensures beside { result.beside ≡ first_beside }
    {
        let members = founders.members();
        Node {
            name,
            status: first_status(members, name),
            known: first_known(members, name),
            registers,
            map: ConfigMap::new(alloc, founders),
            number: 0,
            made: 0,
            heard: HeardNumbers::new(),
            bases: HeardNumbers::new(),
            calls: OpenCalls::new(alloc),
            collection: None,
            attempt: None,
            vote: Vote::new(),
        }
    }

    /// The configuration map.
    pub fn map(&self) -> &ConfigMap<Q>
        ensures { result.now ≡ self.now.state.map }
    {
        &self.map
    }

    /// The name.
    pub fn name(&self) -> Name
        ensures { result ≡ self.now.state.name }
    {
        self.name
    }

    /// The status.
    pub fn status(&self) -> Status
        ensures { result ≡ self.now.state.status }
    {
        self.status
    }

    /// The names that it knows.
    pub fn known(&self) -> Members
        ensures { result ≡ self.now.state.known }
    {
        self.known
    }

    /// The phase number.
    pub fn number(&self) -> u64
        ensures { result ≡ self.now.state.number }
    {
        self.number
    }

    /// Its collection of the lowest place, if it is open.
    pub fn collection(&self) -> Option<Collection>
        ensures { result ≡ self.now.state.collection }
    {
        self.collection
    }

    /// Its attempt to have a configuration chosen, if one is open.
    pub fn attempt(&self) -> Option<Attempt<Q>>
        ensures { result ≡ self.now.state.attempt }
    {
        self.attempt
    }

    // The allocator of what it stores.
    pub(crate) fn alloc(&self) -> Global {
        self.map.places().alloc()
    }

    // The place of the open call of an id, or how many are open where there is no such call.
    pub(crate) fn place_of(&self, id: &CallId) -> usize
        ensures found { slice_get self.now.state.calls result ≡ open_call self.now.state id.now }
        ensures own { is_missing (open_call self.now.state id.now) ≡ false → result ≡ place_of id.now.number self.now.state.calls }
    {
        if id.name != self.name {
            return self.calls.as_slice().len();
        }
        self.calls.place_of(id.number)
    }

    /// The open calls, the oldest first.
    pub fn calls(&self) -> &[OpenCall<Q>]
        ensures { calls_of result.now ≡ self.now.state.calls }
    {
        self.calls.as_slice()
    }

    // The open call at a place, if there is one.
    pub(crate) fn call_at(&self, place: usize) -> Option<&OpenCall<Q>>
        ensures { call_found (option_copied result) ≡ slice_get self.now.state.calls place }
    {
        self.calls().get(place)
    }

    // What the open call at a place asks for, if there is one that is in its query.
    pub(crate) fn query_at(&self, place: usize) -> Option<&Op>
        ensures { option_copied result ≡ query_in (slice_get self.now.state.calls place) }
    {
        query_of(self.call_at(place))
    }
}

// What an open call asks for, if there is one that is in its query.
pub(crate) fn query_of<Q: Quorums>(call: Option<&OpenCall<Q>>) -> Option<&Op>
    ensures { option_copied result ≡ query_in (call_found (option_copied call.entry)) }
{
    match call {
        Some(call) => match call.stage {
            Stage::Query => Some(&call.op),
            Stage::Propagation(_) => None,
        },
        None => None,
    }
}

// Founders are active from the start.
fn first_status(founders: Members, name: Name) -> Status
    ensures { result ≡ first_status founders name }
{
    if founders.has(name) {
        Status::Active
    } else {
        Status::Idle
    }
}

// They know each other from the start.
fn first_known(founders: Members, name: Name) -> Members
    ensures { result ≡ first_known founders name }
{
    if founders.has(name) {
        founders
    } else {
        Members::empty()
    }
}
