//! What a node sends to others, and what it makes of their letters.
ghost use Rattle.std.specs.Prelude.{◌≡◌, ◌&&◌, None, Some, false, IsOk, IfOk, IfErr, OnOk, OnErr};
ghost use Rattle.std.specs.FinMap as map;
ghost use Rattle.rambo_names.specs.Refusals.{IsRefusal};
ghost use Rattle.rambo_gossip.specs.Kinds as kind;
ghost use Rattle.rambo_gossip.specs.Letters.{letter_with, kind_with, gossip_with};
ghost use Rattle.rambo_gossip.specs.Outlines.{outlined, gossip_outlined};
ghost use Rattle.rambo_gossip.specs.Short.{copies_in};
ghost use Rattle.rambo_node.specs.Changes.{refusal_of, made_by};
ghost use Rattle.rambo_calls.specs.Hearing.{any_gap, number_after};
ghost use Rattle.rambo_calls.specs.Kept.{IsRoomy};
ghost use Rattle.rambo_node.specs.FullNodes.{IsDelta, full, beside_after, beside_heard};
ghost use Rattle.rambo_node.specs.Hearing.{collection_after, heard_gossip, heard_rest, heard_join, heard_letter};
ghost use Rattle.rambo_node.specs.Nodes.{raised};
ghost use Rattle.rambo_node.specs.Letters.{letter_for};
ghost use Rattle.rambo_node.specs.Prepared.{IsHearing, IsReadyGossip, IsReadyKind};
ghost use Rattle.rambo_node.specs.Refusals.{is_last};
ghost use Rattle.rambo_node.specs.Acts as act;

use crate::node::Node;
use crate::prepared::Hearing;
use rambo_bids::{hear_offer, hear_vote, offer_of};
use rambo_config_map::ConfigMap;
use rambo_gc::Collection;
use rambo_gossip::{GossipOutline, Letter, LetterOutline};
use rambo_names::{Name, Quorums, Refusal};
use rambo_tag::{Pack, Replica};
use std::alloc::Global;

impl<Q: Quorums, S: Replica> Node<Q, S> {
    /// The letter for a name: what the node knows where it is active, else that it wants to join.
    ///
    /// Refused with 3 where the node is idle, 4 where it has stopped. Else with 5 where the name is its own or one that
    /// it doesn't know. Else with 22 where there is no room for the list of its copies.
    #[tactic(auto, unfolding(crate::specs::Changes::made_by))]
    pub fn letter_for(&self, to: Name) -> Result<Letter<Q>, Refusal>
        ensures judged { OnOk result (refusal_of Q.system self.now.state (act.Send to) ≡ None) }
        ensures letter { IfOk result (λ l. (made_by self.now.state (act.Send to)).letter ≡ Some l) }
        ensures refused { IfErr result (IsRefusal (refusal_of Q.system self.now.state (act.Send to))) }
    {
        self.may_send(to)?;
        let copies = self.registers.pack()?;
        self.letter_of(to, copies)
    }

    /// The copies that may be new to a name: those whose stamp is at least the node's base for it. The base is the
    /// greatest phase number of the node that letters of the name carried as heard. All that changed before, the name
    /// holds. Keys and values are shared, not copied, and the time is in proportion to what it returns.
    ///
    /// `OutOfMemory` where there is no room for the list of them.
    pub fn pack_for(&self, to: Name) -> Result<Pack, Refusal>
        ensures since { IfOk result (IsDelta (full self.now) to) }
        ensures refused { IfErr result (λ r. r ≡ Refusal.OutOfMemory) }
    {
        self.registers.pack_since(self.bases.of(to))
    }

    /// The letter for a name, without its copies. It allocates nothing.
    pub fn outline_for(&self, to: Name) -> LetterOutline<'_, Q>
        ensures { result ≡ letter_with (letter_for self.now.state to) map.empty }
    {
        LetterOutline {
            sender: self.name,
            addressee: to,
            gossip: self.gossip_outline(to),
        }
    }

    /// Hears a letter. One of a joining node makes its sender known. One of an active node wakes a joining node, and
    /// all that its sender knows is merged. Each open call whose phase it replies to counts the sender. A reply that
    /// leaves a gap in the configurations of a phase restarts it, under one new number for all. A collection counts the
    /// reply too.
    ///
    /// The vote is emptied where its place has become known. It takes the letter's offer, and an attempt hears the
    /// letter's vote, where these are for the same place.
    ///
    /// Refused with 3 where the node is idle, 4 where it has stopped. Else with 21 where a phase would restart and the
    /// phase number is the greatest one. Else with 22 where there is no room for what is new. The wish of a node to
    /// join needs none.
    #[tactic(auto, unfolding(crate::specs::Changes::made_by))]
    pub fn hear(&mut self, letter: &Letter<Q>) -> Result<(), Refusal>
        ensures judged { OnOk result (refusal_of Q.system self.old.state (act.Hear letter.now) ≡ None) }
        ensures node { OnOk result (self.new.state ≡ (made_by self.old.state (act.Hear letter.now)).node) }
        ensures beside { OnOk result (self.new.beside ≡ beside_after self.old.state self.old.beside (act.Hear letter.now)) }
        ensures refused { IfErr result (IsRefusal (refusal_of Q.system self.old.state (act.Hear letter.now))) }
        ensures join { letter.now.kind ≡ kind.Join → IfErr result (λ r. refusal_of Q.system self.old.state (act.Hear letter.now) ≡ Some r) }
        ensures err { OnErr result (self.new.state ≡ self.old.state) }
        ensures kept { OnErr result (self.new.beside ≡ self.old.beside) }
    {
        let hearing = self.ready_letter(self.alloc(), letter)?;
        self.hear_ready(letter, hearing);
        Ok(())
    }
}

impl<Q: Quorums, S: Replica> Node<Q, S> {
    // The letter for a name, with these copies.
    fn letter_of(&self, to: Name, copies: Pack) -> Result<Letter<Q>, Refusal>
        ensures same { IfOk result (λ l. l ≡ letter_with (letter_for self.now.state to) copies) }
        ensures refused { IfErr result (λ r. r ≡ Refusal.OutOfMemory) }
    {
        let mut told = None;
        let outline = self.outline_for(to);
        Letter::new(self.alloc(), &outline, copies, &mut told)
    }

    // What the node sends to a name apart from copies, if it is active.
    fn gossip_outline(&self, to: Name) -> Option<GossipOutline<'_, Q>>
        ensures { outlined result ≡ kind_with (letter_for self.now.state to).kind map.empty }
    {
        if !self.status.is_active() {
            return None;
        }
        Some(GossipOutline {
            known: self.known,
            map: &self.map,
            number: self.number,
            heard: self.heard.of(to),
            vote: &self.vote,
            offer: offer_of(&self.attempt, &self.map),
        })
    }

    // The phase number after gossip with this heard number and map, for which there is one.
    fn number_after(&self, heard: u64, map: &ConfigMap<Q>) -> u64
        requires { (any_gap heard map.now self.now.state.calls && is_last self.now.state.number) ≡ false }
        ensures { result ≡ number_after self.now.state.number heard map.now self.now.state.calls }
    {
        if self.calls.any_gap(heard, map) {
            return self.number + 1;
        }
        self.number
    }

    // A joining node makes itself known.
    #[tactic(auto, unfolding(crate::specs::Hearing::heard_join))]
    fn meet(&mut self, from: Name)
        ensures state { self.new.state ≡ heard_join self.old.state from }
        ensures beside { self.new.beside ≡ self.old.beside }
    {
        self.known = self.known.with(from);
    }

    // Makes room in the open calls to hear gossip with this map.
    fn room_for(&mut self, map: &ConfigMap<Q>) -> Result<(), Refusal>
        ensures same { self.new.state ≡ self.old.state }
        ensures beside { self.new.beside ≡ self.old.beside }
        ensures room { OnOk result (IsRoomy map.now self.new.room.calls.list) }
        ensures refused { IfErr result (λ r. r ≡ Refusal.OutOfMemory) }
    {
        self.calls.make_room(map)
    }

    // Hears gossip, but for its copies, where there is room for its map, and this is the phase number after it. What goes by
    // the map as it was comes before the map.
    fn settle(&mut self, from: Name, gossip: &GossipOutline<'_, Q>, number: u64)
        requires room { IsRoomy gossip.now.map.now self.old.room.calls.list }
        requires number { number ≡ number_after self.old.state.number gossip.now.heard gossip.now.map.now self.old.state.calls }
        ensures state { self.new.state ≡ heard_rest self.old.state from (gossip_outlined gossip.now) }
        ensures beside { self.new.beside ≡ record self.old.beside { bases = raised self.old.beside.bases from gossip.now.heard } }
    {
        hear_reply(&mut self.collection, from, gossip.heard);
        hear_vote(&mut self.attempt, &self.map, from, gossip.map, gossip.vote);
        hear_offer(&mut self.vote, &self.map, gossip.map, &gossip.offer);
        self.map.merge(gossip.map);
        self.calls.hear(from, gossip.heard, gossip.map, number, &self.map, self.name);
        self.status.wake();
        self.known = self.known.union(gossip.known);
        self.heard.raise(from, gossip.number);
        self.bases.raise(from, gossip.heard);
        self.number = number;
    }
}

// The first half of hearing a letter that isn't refused.
impl<Q: Quorums, S: Replica> Node<Q, S> {
    // Of any: it is judged, and room is made for it. In either case the node itself is unchanged.
    pub(crate) fn ready_letter(
        &mut self,
        alloc: Global,
        letter: &Letter<Q>,
    ) -> Result<Hearing, Refusal>
        ensures judged { OnOk result (refusal_of Q.system self.old.state (act.Hear letter.now) ≡ None) }
        ensures same { self.new.state ≡ self.old.state }
        ensures beside { self.new.beside ≡ self.old.beside }
        ensures hearing { IfOk result (IsHearing self.new letter.now) }
        ensures refused { IfErr result (IsRefusal (refusal_of Q.system self.old.state (act.Hear letter.now))) }
        ensures join { letter.now.kind ≡ kind.Join → IfErr result (λ r. refusal_of Q.system self.old.state (act.Hear letter.now) ≡ Some r) }
    {
        let outline = letter.outline();
        self.may_hear(&outline)?;
        let copies = copies_of(alloc, letter)?;
        self.ready_hear(&outline, copies)
    }

    /// The first half of hearing a letter that isn't refused, given by its outline and its copies: room is made for it.
    /// In either case the node itself is unchanged.
    ///
    /// `OutOfMemory` where there is no room for what is new. The wish of a node to join needs none.
    pub fn ready_hear(
        &mut self,
        outline: &LetterOutline<'_, Q>,
        copies: Pack,
    ) -> Result<Hearing, Refusal>
        requires { refusal_of Q.system self.old.state (act.Hear outline.now) ≡ None }
        ensures same { self.new.state ≡ self.old.state }
        ensures beside { self.new.beside ≡ self.old.beside }
        ensures hearing { IfOk result (IsHearing self.new (letter_with outline.now copies)) }
        ensures refused { IfErr result (λ r. r ≡ Refusal.OutOfMemory) }
        ensures join { outline.now.kind ≡ kind.Join → IsOk result }
    {
        match &outline.gossip {
            None => Ok(self.ready_join()),
            Some(gossip) => self.ready_gossip(gossip, copies),
        }
    }

    // Of one of a joining node.
    fn ready_join(&self) -> Hearing
        ensures none { result.copies ≡ map.empty }
    {
        Hearing {
            copies: Pack::empty(self.alloc()),
            number: self.number,
        }
    }

    // Of gossip, for which there is a phase number.
    fn ready_gossip(
        &mut self,
        gossip: &GossipOutline<'_, Q>,
        copies: Pack,
    ) -> Result<Hearing, Refusal>
        requires { (any_gap gossip.now.heard gossip.now.map.now self.old.state.calls && is_last self.old.state.number) ≡ false }
        ensures same { self.new.state ≡ self.old.state }
        ensures beside { self.new.beside ≡ self.old.beside }
        ensures copies { IfOk result (λ h. h.copies ≡ copies) }
        ensures ready { IfOk result (λ h. IsReadyGossip self.new (gossip_outlined gossip.now) h.copies h.number) }
        ensures refused { IfErr result (λ r. r ≡ Refusal.OutOfMemory) }
    {
        let number = self.number_after(gossip.heard, gossip.map);
        self.room_for(gossip.map)?;
        self.registers.room(&copies)?;
        Ok(Hearing { copies, number })
    }
}

// The second half.
impl<Q: Quorums, S: Replica> Node<Q, S> {
    // A letter is heard that is ready.
    pub(crate) fn hear_ready(&mut self, letter: &Letter<Q>, hearing: Hearing)
        requires { IsHearing self.old letter.now hearing }
        ensures state { self.new.state ≡ heard_letter self.old.state letter.now }
        ensures beside { self.new.beside ≡ beside_after self.old.state self.old.beside (act.Hear letter.now) }
    {
        self.finish_hear(&letter.outline(), hearing);
    }

    /// The second half of hearing a letter that is ready, given by its outline: the node has then heard the letter.
    ///
    /// It allocates nothing and can't fail.
    pub fn finish_hear(&mut self, outline: &LetterOutline<'_, Q>, hearing: Hearing)
        requires { IsReadyKind self.old outline.now.kind hearing.copies hearing.number }
        ensures state { self.new.state ≡ heard_letter self.old.state (letter_with outline.now hearing.copies) }
        ensures beside { self.new.beside ≡ beside_after self.old.state self.old.beside (act.Hear (letter_with outline.now hearing.copies)) }
    {
        match &outline.gossip {
            None => self.meet(outline.sender),
            Some(gossip) => self.finish_gossip(outline.sender, gossip, hearing),
        }
    }

    // Gossip is heard that is ready.
    fn finish_gossip(&mut self, from: Name, gossip: &GossipOutline<'_, Q>, hearing: Hearing)
        requires { IsReadyGossip self.old (gossip_outlined gossip.now) hearing.copies hearing.number }
        ensures state { self.new.state ≡ heard_gossip self.old.state from (gossip_with (gossip_outlined gossip.now) hearing.copies) }
        ensures beside { self.new.beside ≡ beside_heard self.old.state self.old.beside from (kind.Gossip (gossip_with (gossip_outlined gossip.now) hearing.copies)) }
    {
        let Hearing { copies, number } = hearing;
        self.registers.merge_room(copies, self.number);
        self.settle(from, gossip, number);
    }
}

// The copies of a letter, in a list of its own.
fn copies_of<Q: Quorums>(alloc: Global, letter: &Letter<Q>) -> Result<Pack, Refusal>
    ensures same { IfOk result (λ p. p ≡ copies_in letter.now.kind) }
    ensures join { letter.now.kind ≡ kind.Join → IsOk result }
    ensures refused { IfErr result (λ r. r ≡ Refusal.OutOfMemory) }
{
    match letter.copies() {
        Some(copies) => copies.clone(),
        None => Ok(Pack::empty(alloc)),
    }
}

// A collection, if there is one, hears a letter of a node that had heard this number.
fn hear_reply(collection: &mut Option<Collection>, from: Name, heard: u64)
    ensures { collection.new ≡ collection_after collection.old from heard }
{
    if let Some(collection) = collection {
        collection.hear(from, heard);
    }
}
