//! Steps of a node: why it refuses one, and what it does, in two halves. The first may fail, and the second changes the node.
//!
//! Where a step delivers a letter, that comes beside it, if it was sent.
ghost use Rattle.std.specs.Prelude.{◌≡◌, None, Some, false, OnOk, IfOk, IfErr};
ghost use Rattle.std.specs.Option.{option_copied};
ghost use Rattle.rambo_names.specs.Refusals.{IsRefusal};
ghost use Rattle.rambo_node.specs.Acts.{Act, Meant, delivery, meant_by};
ghost use Rattle.rambo_node.specs.Acts as act;
ghost use Rattle.rambo_node.specs.Changes.{refusal_of, made_by};
ghost use Rattle.rambo_node.specs.FullNodes.{beside_after};
ghost use Rattle.rambo_node.specs.Halves.{IsEmpty, IsReadyAdvance, IsReadyCall, IsReadyDelivery, IsReadyStep, event_in, event_of, judged, letter_of, mark_in, mark_of, outline_of};
ghost use Rattle.rambo_node.specs.Memory.{needs_memory};
ghost use Rattle.rambo_node.specs.Prepared.{IsFound, IsMoving};

use crate::effect::Effect;
use crate::half::{Ended, Going, Half};
use crate::node::Node;
use crate::prepared::{Found, Hearing, Quiet};
use crate::step::{StepOf, quiet_of};
use crate::workspace::Workspace;
use rambo_gossip::Letter;
use rambo_history::{CallId, Event, Op};
use rambo_names::{Name, Quorums, Refusal};
use rambo_tag::Replica;
use std::alloc::Global;
use std::mem;

impl<Q: Quorums, S: Replica> Node<Q, S> {
    /// Why the node refuses what the step means, if it does: by the least number. It allocates nothing.
    ///
    /// The letter is the one that comes, if it was sent.
    pub fn judge<L>(&self, step: &StepOf<Q, L>, letter: Option<&Letter<Q>>) -> Result<(), Refusal>
        ensures ok { OnOk result (judged Q.system self.now.state (meant_by (option_copied letter.entry) step.now) ≡ None) }
        ensures refused { IfErr result (λ r. judged Q.system self.now.state (meant_by (option_copied letter.entry) step.now) ≡ Some r) }
    {
        match step {
            StepOf::Call(_, op) => self.may_call(op),
            StepOf::Send(_, to) => self.may_send(*to),
            StepOf::Advance(id) => self.may_go_on(id),
            StepOf::Deliver(_) => self.may_deliver(letter),
            _ => match quiet_of(step) {
                Some(meant) => self.may_quiet(&meant.1),
                None => unreachable!(),
            },
        }
    }

    /// The first half of what the step means: it is judged, room is made for it, and what it will do is found. In
    /// either case the node itself is unchanged.
    ///
    /// Refused with what `judge` says, else 22, where there is no room for it.
    pub fn begin<L>(
        &mut self,
        alloc: Global,
        workspace: &mut Workspace<Q>,
        step: &StepOf<Q, L>,
        letter: Option<&Letter<Q>>,
    ) -> Result<Half<Q>, Refusal>
        ensures judged { OnOk result (judged Q.system self.old.state (meant_by (option_copied letter.entry) step.now) ≡ None) }
        ensures same { self.new.state ≡ self.old.state }
        ensures beside { self.new.beside ≡ self.old.beside }
        ensures ready { IfOk result (λ h. (m : Meant _) → meant_by (option_copied letter.entry) step.now ≡ Some m → IsReadyStep Q.system self.new (outline_of (option_copied letter.entry)) m.act h) }
        ensures refused { IfErr result (IsRefusal (judged Q.system self.old.state (meant_by (option_copied letter.entry) step.now))) }
        ensures no_memory { (m : Meant _) → meant_by (option_copied letter.entry) step.now ≡ Some m → needs_memory m.act ≡ false → IfErr result (λ r. refusal_of Q.system self.old.state m.act ≡ Some r) }
    {
        match step {
            StepOf::Call(_, op) => self.begin_call(alloc, workspace, op),
            StepOf::Send(_, to) => self.begin_send(alloc, workspace, *to),
            StepOf::Advance(id) => self.begin_advance(alloc, workspace, id),
            StepOf::Deliver(_) => self.begin_hearing(alloc, letter),
            _ => match quiet_of(step) {
                Some(meant) => self.begin_quiet(meant.1),
                None => unreachable!(),
            },
        }
    }

    /// The second half of what a step means: the node changes. Returns what it leaves to its owner.
    ///
    /// It allocates nothing and can't fail. The letter is the one that comes, or another that differs from it in copies alone.
    pub fn end(&mut self, half: Half<Q>, letter: Option<&Letter<Q>>) -> Ended<Q>
        requires { (a : Act _) × IsReadyStep Q.system self.old (outline_of (option_copied letter)) a half }
        ensures node { (a : Act _) → IsReadyStep Q.system self.old (outline_of (option_copied letter.entry)) a half → self.new.state ≡ (made_by self.old.state a).node }
        ensures beside { (a : Act _) → IsReadyStep Q.system self.old (outline_of (option_copied letter.entry)) a half → self.new.beside ≡ beside_after self.old.state self.old.beside a }
        ensures effect { (a : Act _) → IsReadyStep Q.system self.old (outline_of (option_copied letter.entry)) a half → result.effect ≡ (made_by self.old.state a).deed.effect }
        ensures letter { result.letter ≡ letter_of half }
        ensures event { event_in result.going ≡ event_of half }
        ensures mark { mark_in result.going ≡ mark_of half }
    {
        match half {
            Half::Send(letter) => Ended {
                effect: Effect::Done,
                letter: Some(letter),
                going: None,
            },
            Half::Hear(hearing) => {
                self.end_hearing(letter, hearing);
                alone(Effect::Done)
            }
            Half::Call(going) => {
                let mut going = going;
                let effect = self.end_call(&mut going);
                gone_on(effect, going)
            }
            Half::Advance(going) => {
                let mut going = going;
                let effect = self.end_advance(&mut going);
                gone_on(effect, going)
            }
            Half::Quiet(quiet) => alone(self.do_quiet(quiet)),
        }
    }
}

// What is left where nothing else is.
fn alone<Q: Quorums>(effect: Effect<Q>) -> Ended<Q>
    ensures { result ≡ record { effect = effect; letter = None; going = None } }
{
    Ended {
        effect,
        letter: None,
        going: None,
    }
}

// And where a call began or went on.
fn gone_on<Q: Quorums>(effect: Effect<Q>, going: Box<Going<Q>>) -> Ended<Q>
    ensures { result ≡ record { effect = effect; letter = None; going = Some going } }
{
    Ended {
        effect,
        letter: None,
        going: Some(going),
    }
}

// A call begins that asks for this, of which this is told.
fn tell_call<Q: Quorums>(going: &mut Going<Q>, event: Event, asked: Op)
    ensures event { going.new.deed.event ≡ Some event }
    ensures mark { going.new.deed.mark ≡ going.old.deed.mark }
    ensures asked { going.new.asked ≡ Some asked }
{
    going.deed.event = Some(event);
    going.asked = Some(asked);
}

// Why a step of one kind is refused.
impl<Q: Quorums, S: Replica> Node<Q, S> {
    // Why a call of the node may not go on, if it may not.
    fn may_go_on(&self, id: &CallId) -> Result<(), Refusal>
        ensures ok { OnOk result (refusal_of Q.system self.now.state (act.Advance id.now) ≡ None) }
        ensures refused { IfErr result (λ r. refusal_of Q.system self.now.state (act.Advance id.now) ≡ Some r) }
    {
        let _found = self.may_advance(id)?;
        Ok(())
    }

    // Why the node doesn't hear a letter, if it doesn't, or it wasn't sent.
    fn may_deliver(&self, letter: Option<&Letter<Q>>) -> Result<(), Refusal>
        ensures ok { OnOk result (judged Q.system self.now.state (delivery (option_copied letter.entry)) ≡ None) }
        ensures refused { IfErr result (λ r. judged Q.system self.now.state (delivery (option_copied letter.entry)) ≡ Some r) }
    {
        match letter {
            Some(letter) => self.may_hear_letter(letter),
            None => Err(Refusal::NoSuchLetter),
        }
    }

    /// Why the node refuses a letter, if it does: what `ready` says. It allocates nothing.
    pub fn may_hear_letter(&self, letter: &Letter<Q>) -> Result<(), Refusal>
        ensures ok { OnOk result (refusal_of Q.system self.now.state (act.Hear letter.now) ≡ None) }
        ensures refused { IfErr result (λ r. refusal_of Q.system self.now.state (act.Hear letter.now) ≡ Some r) }
    {
        self.may_hear(&letter.outline())
    }
}

// The first half of a step of one kind.
impl<Q: Quorums, S: Replica> Node<Q, S> {
    // Of a call: it is judged, and room is made for it.
    fn begin_call(
        &mut self,
        alloc: Global,
        workspace: &mut Workspace<Q>,
        op: &Op,
    ) -> Result<Half<Q>, Refusal>
        ensures judged { OnOk result (refusal_of Q.system self.old.state (act.Call op.now) ≡ None) }
        ensures same { self.new.state ≡ self.old.state }
        ensures beside { self.new.beside ≡ self.old.beside }
        ensures ready { IfOk result (IsReadyStep Q.system self.new None (act.Call op.now)) }
        ensures refused { IfErr result (IsRefusal (refusal_of Q.system self.old.state (act.Call op.now))) }
    {
        self.may_call(op)?;
        self.prepare_call(alloc, workspace, op)
    }

    // Of a call that isn't refused.
    // (a call is large, and where this is inlined the other kinds clear its room)
    #[inline(never)]
    fn prepare_call(
        &mut self,
        alloc: Global,
        workspace: &mut Workspace<Q>,
        op: &Op,
    ) -> Result<Half<Q>, Refusal>
        requires { refusal_of Q.system self.old.state (act.Call op.now) ≡ None }
        ensures same { self.new.state ≡ self.old.state }
        ensures beside { self.new.beside ≡ self.old.beside }
        ensures ready { IfOk result (IsReadyStep Q.system self.new None (act.Call op.now)) }
        ensures refused { IfErr result (λ r. r ≡ Refusal.OutOfMemory) }
    {
        let id = self.next_id();
        let mut going = workspace.going(alloc, id)?;
        let asked = op.clone()?;
        let told = op.clone()?;
        self.ready_call()?;
        let own = self.next_id();
        let event = Event::Call(own, told);
        tell_call(&mut going, event, asked);
        Ok(Half::Call(going))
    }

    // Of the node's letter to a name, with those copies that the name may lack. It shares what it reports of configurations
    // with the node's last one, if that reported the same. How many copies it carries is noted.
    fn begin_send(
        &self,
        alloc: Global,
        workspace: &mut Workspace<Q>,
        to: Name,
    ) -> Result<Half<Q>, Refusal>
        ensures judged { OnOk result (refusal_of Q.system self.now.state (act.Send to) ≡ None) }
        ensures ready { IfOk result (IsReadyStep Q.system self.now None (act.Send to)) }
        ensures refused { IfErr result (IsRefusal (refusal_of Q.system self.now.state (act.Send to))) }
    {
        self.may_send(to)?;
        // (whom it is for has a number in range)
        let _number = to.number();
        let copies = self.pack_for(to)?;
        let outline = self.outline_for(to);
        workspace.carried.add(&outline, copies.copies().len());
        let letter = Letter::new(alloc, &outline, copies, &mut workspace.told)?;
        Ok(Half::Send(letter))
    }

    // Of the advance of a call: it is judged, and what it will do is found.
    fn begin_advance(
        &mut self,
        alloc: Global,
        workspace: &mut Workspace<Q>,
        id: &CallId,
    ) -> Result<Half<Q>, Refusal>
        ensures judged { OnOk result (refusal_of Q.system self.old.state (act.Advance id.now) ≡ None) }
        ensures same { self.new.state ≡ self.old.state }
        ensures beside { self.new.beside ≡ self.old.beside }
        ensures ready { IfOk result (IsReadyStep Q.system self.new None (act.Advance id.now)) }
        ensures refused { IfErr result (IsRefusal (refusal_of Q.system self.old.state (act.Advance id.now))) }
    {
        let found = self.may_advance(id)?;
        self.prepare_advance(alloc, workspace, *id, found)
    }

    // Of the advance of a call that may advance, which was found here.
    // (as above)
    #[inline(never)]
    fn prepare_advance(
        &mut self,
        alloc: Global,
        workspace: &mut Workspace<Q>,
        id: CallId,
        found: Found,
    ) -> Result<Half<Q>, Refusal>
        requires { IsFound Q.system self.old.state id found }
        ensures same { self.new.state ≡ self.old.state }
        ensures beside { self.new.beside ≡ self.old.beside }
        ensures ready { IfOk result (IsReadyStep Q.system self.new None (act.Advance id)) }
        ensures refused { IfErr result (λ r. r ≡ Refusal.OutOfMemory) }
    {
        let mut going = workspace.going(alloc, id)?;
        self.find_advance(&mut going, found)?;
        Ok(Half::Advance(going))
    }

    // What the advance will do is written where it lies.
    fn find_advance(&mut self, going: &mut Going<Q>, found: Found) -> Result<(), Refusal>
        requires empty { IsEmpty going.old.moving.id going.old }
        requires found { IsFound Q.system self.old.state going.old.moving.id found }
        ensures same { self.new.state ≡ self.old.state }
        ensures beside { self.new.beside ≡ self.old.beside }
        ensures id { OnOk result (going.new.moving.id ≡ going.old.moving.id) }
        ensures moving { OnOk result (IsMoving Q.system self.new going.new.moving) }
        ensures deed { OnOk result (going.new.deed ≡ (made_by self.old.state (act.Advance going.old.moving.id)).deed) }
        ensures refused { IfErr result (λ r. r ≡ Refusal.OutOfMemory) }
    {
        going.moving.found = found;
        self.ready_advance(&mut going.moving, &mut going.deed)
    }

    // Of a letter that comes.
    fn begin_hearing(
        &mut self,
        alloc: Global,
        letter: Option<&Letter<Q>>,
    ) -> Result<Half<Q>, Refusal>
        ensures judged { OnOk result (judged Q.system self.old.state (delivery (option_copied letter.entry)) ≡ None) }
        ensures same { self.new.state ≡ self.old.state }
        ensures beside { self.new.beside ≡ self.old.beside }
        ensures ready { IfOk result (λ h. (m : Meant _) → delivery (option_copied letter.entry) ≡ Some m → IsReadyStep Q.system self.new (outline_of (option_copied letter.entry)) m.act h) }
        ensures refused { IfErr result (IsRefusal (judged Q.system self.old.state (delivery (option_copied letter.entry)))) }
        ensures no_memory { (m : Meant _) → delivery (option_copied letter.entry) ≡ Some m → needs_memory m.act ≡ false → IfErr result (λ r. refusal_of Q.system self.old.state m.act ≡ Some r) }
    {
        let Some(letter) = letter else {
            return Err(Refusal::NoSuchLetter);
        };
        let hearing = self.ready_letter(alloc, letter)?;
        Ok(Half::Hear(hearing))
    }

    // Of a quiet one: it is judged.
    fn begin_quiet(&self, quiet: Quiet<Q>) -> Result<Half<Q>, Refusal>
        ensures judged { OnOk result (refusal_of Q.system self.now.state (act.Quietly quiet) ≡ None) }
        ensures ready { IfOk result (IsReadyStep Q.system self.now None (act.Quietly quiet)) }
        ensures refused { IfErr result (λ r. refusal_of Q.system self.now.state (act.Quietly quiet) ≡ Some r) }
    {
        self.may_quiet(&quiet)?;
        Ok(Half::Quiet(quiet))
    }
}

// The second half of a step of one kind.
impl<Q: Quorums, S: Replica> Node<Q, S> {
    // Of a letter that comes.
    fn end_hearing(&mut self, letter: Option<&Letter<Q>>, hearing: Hearing)
        requires { (a : Act _) × IsReadyDelivery self.old (outline_of (option_copied letter)) a hearing }
        ensures node { (a : Act _) → IsReadyDelivery self.old (outline_of (option_copied letter.entry)) a hearing → self.new.state ≡ (made_by self.old.state a).node }
        ensures beside { (a : Act _) → IsReadyDelivery self.old (outline_of (option_copied letter.entry)) a hearing → self.new.beside ≡ beside_after self.old.state self.old.beside a }
    {
        let Some(letter) = letter else {
            return;
        };
        self.finish_hear(&letter.outline(), hearing);
    }

    // Of a call: it begins. What is told of it stays.
    fn end_call(&mut self, going: &mut Going<Q>) -> Effect<Q>
        requires { (a : Act _) × (refusal_of Q.system self.old.state a ≡ None) × IsReadyCall self.old a going.old }
        ensures node { (a : Act _) → IsReadyCall self.old a going.old → self.new.state ≡ (made_by self.old.state a).node }
        ensures beside { (a : Act _) → IsReadyCall self.old a going.old → self.new.beside ≡ beside_after self.old.state self.old.beside a }
        ensures effect { (a : Act _) → IsReadyCall self.old a going.old → result ≡ (made_by self.old.state a).deed.effect }
        ensures event { going.new.deed.event ≡ going.old.deed.event }
        ensures mark { going.new.deed.mark ≡ going.old.deed.mark }
    {
        let Some(op) = going.asked.take() else {
            unreachable!()
        };
        Effect::Called(self.finish_call(op))
    }

    // Of the advance of a call. What is told of it stays, but for its effect.
    fn end_advance(&mut self, going: &mut Going<Q>) -> Effect<Q>
        requires { (a : Act _) × IsReadyAdvance Q.system self.old a going.old }
        ensures node { (a : Act _) → IsReadyAdvance Q.system self.old a going.old → self.new.state ≡ (made_by self.old.state a).node }
        ensures beside { (a : Act _) → IsReadyAdvance Q.system self.old a going.old → self.new.beside ≡ beside_after self.old.state self.old.beside a }
        ensures effect { (a : Act _) → IsReadyAdvance Q.system self.old a going.old → result ≡ (made_by self.old.state a).deed.effect }
        ensures event { going.new.deed.event ≡ going.old.deed.event }
        ensures mark { going.new.deed.mark ≡ going.old.deed.mark }
    {
        self.finish_advance(&mut going.moving);
        mem::replace(&mut going.deed.effect, Effect::Done)
    }

    /// A change that allocates nothing and isn't refused: the node changes. Returns what is reported.
    #[tactic(auto, unfolding(crate::specs::Changes::made_by))]
    pub fn do_quiet(&mut self, quiet: Quiet<Q>) -> Effect<Q>
        requires { refusal_of Q.system self.old.state (act.Quietly quiet) ≡ None }
        ensures node { self.new.state ≡ (made_by self.old.state (act.Quietly quiet)).node }
        ensures beside { self.new.beside ≡ self.old.beside }
        ensures effect { result ≡ (made_by self.old.state (act.Quietly quiet)).deed.effect }
    {
        match quiet {
            Quiet::Join(contacts) => {
                self.do_join(contacts);
                Effect::Done
            }
            Quiet::Again(id) => {
                self.do_again(id);
                Effect::Done
            }
            Quiet::Collect => {
                self.do_collect();
                Effect::Done
            }
            Quiet::AdvanceCollect => self.do_advance_collect(),
            Quiet::Recon(wish) => {
                self.do_recon(wish);
                Effect::Done
            }
            Quiet::Rebid => {
                self.do_rebid();
                Effect::Done
            }
            Quiet::AdvanceRecon => self.do_advance_recon(),
            Quiet::Stop => {
                self.do_stop();
                Effect::Done
            }
        }
    }
}
