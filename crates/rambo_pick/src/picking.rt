//! What a node does first of what it may do by itself.
ghost use Rattle.std.specs.Prelude.{◌≡◌, map, option_map};
ghost use Rattle.rambo_node.specs.Changes.{refusal_of};
ghost use Rattle.rambo_node.specs.Acts as act;
ghost use Rattle.rambo_pick.specs.Picking.{first_of, candidates, delivery, advance, of_configurations};

use rambo_gossip::Letter;
use rambo_history::CallId;
use rambo_mail::Mail;
use rambo_names::{Quorums, Refusal};
use rambo_node::{Node, Quiet};
use rambo_run::{Step, StepOf};
use rambo_tag::Replica;

// Why a node doesn't hear a letter, if it doesn't.
fn unheard<Q: Quorums, S: Replica>(node: &Node<Q, S>, letter: &Letter<Q>) -> Option<Refusal>
    ensures { result ≡ refusal_of Q.system node.now.state (act.Hear letter.now) }
{
    match node.may_hear_letter(letter) {
        Ok(()) => None,
        Err(refusal) => Some(refusal),
    }
}

// Why a call of a node doesn't go on, if it doesn't.
fn unmoved<Q: Quorums, S: Replica>(node: &Node<Q, S>, id: &CallId) -> Option<Refusal>
    ensures { result ≡ refusal_of Q.system node.now.state (act.Advance id.now) }
{
    match node.may_advance(id) {
        Ok(_) => None,
        Err(refusal) => Some(refusal),
    }
}

// Why a node refuses a change that is quiet, if it does.
fn refused<Q: Quorums, S: Replica>(node: &Node<Q, S>, quiet: &Quiet<Q>) -> Option<Refusal>
    ensures { result ≡ refusal_of Q.system node.now.state (act.Quietly quiet.now) }
{
    match node.may_quiet(quiet) {
        Ok(()) => None,
        Err(refusal) => Some(refusal),
    }
}

// The first letter that the node hears.
fn heard_first<Q: Quorums, S: Replica>(node: &Node<Q, S>, tray: &[Mail<Q>]) -> Option<u64>
    ensures { option_map StepOf.Deliver result ≡ first_of Q.system node.now.state (map delivery tray.now) }
{
    let mut rest = tray;
    while let Some((mail, others)) = rest.split_first() {
        if unheard(node, &mail.letter).is_none() {
            return Some(mail.number);
        }
        rest = others;
    }
    None
}

// The first open call that goes on.
fn moved_first<Q: Quorums, S: Replica>(node: &Node<Q, S>) -> Option<CallId>
    ensures { option_map StepOf.Advance result ≡ first_of Q.system node.now.state (map (advance node.now.state.name) node.now.state.calls) }
{
    let mut rest = node.calls();
    while let Some((call, others)) = rest.split_first() {
        let id = CallId {
            name: node.name(),
            number: call.number,
        };
        if unmoved(node, &id).is_none() {
            return Some(id);
        }
        rest = others;
    }
    None
}

// The collection of a node, or its attempt, if it goes on.
fn turned_first<Q: Quorums, S: Replica>(node: &Node<Q, S>) -> Option<Step<Q>>
    ensures { result ≡ first_of Q.system node.now.state (of_configurations node.now.state.name) }
{
    if refused(node, &Quiet::AdvanceCollect).is_none() {
        return Some(Step::AdvanceCollect(node.name()));
    }
    if refused(node, &Quiet::AdvanceRecon).is_none() {
        return Some(Step::AdvanceRecon(node.name()));
    }
    None
}

/// What a node that has this tray does by itself: the first of these that it doesn't refuse. They are the delivery of
/// each letter in the tray, the oldest first; the advance of each open call, the oldest first; the advances of its
/// collection and its attempt.
///
/// It allocates nothing.
pub fn first_step<Q: Quorums, S: Replica>(node: &Node<Q, S>, tray: &[Mail<Q>]) -> Option<Step<Q>>
    ensures { result ≡ first_of Q.system node.now.state (candidates node.now.state tray.now) }
{
    if let Some(number) = heard_first(node, tray) {
        return Some(Step::Deliver(number));
    }
    if let Some(id) = moved_first(node) {
        return Some(Step::Advance(id));
    }
    turned_first(node)
}
