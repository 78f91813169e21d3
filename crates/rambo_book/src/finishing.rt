//! The second half of a step: its node changes, and what it leaves goes to where it belongs.
//!
//! Nothing here allocates, and nothing fails.
ghost use Rattle.std.specs.Prelude.{◌≡◌, ◌+◌, ◌<◌, ◌^◌, ◌++◌, ◌∷◌, [], List, None, Some, length};
ghost use Rattle.std.specs.Option.{option_copied};
ghost use Rattle.rambo_gossip.specs.Letters.{LetterState};
ghost use Rattle.rambo_history.specs.Faults.{fault_of};
ghost use Rattle.rambo_node.specs.Acts.{Act};
ghost use Rattle.rambo_node.specs.Changes.{made_by};
ghost use Rattle.rambo_node.specs.FullNodes.{beside_after};
ghost use Rattle.rambo_node.specs.Halves.{IsReadyStep, event_in, event_of, letter_of, mark_in, mark_of, outline_of};
ghost use Rattle.rambo_run.specs.Chronicles.{ChronicleView, IsMarked};
ghost use Rattle.rambo_run.specs.Steps.{effect_in, with_event, with_letter};
ghost use Rattle.rambo_book.specs.Records.{Recorded};

use crate::letters::Letters;
use crate::record::Record;
use rambo_gossip::Letter;
use rambo_history::Event;
use rambo_names::Quorums;
use rambo_node::{Effect, Ended, Going, Half, Node, Workspace};
use rambo_sequence::Mark;
use rambo_tag::Replica;

// The second half of a step whose first half is made: what is told of it. A letter that comes is this one.
pub(crate) fn finish<Q: Quorums, S: Replica>(
    letters: &mut Letters<Q>,
    kept: &mut Record,
    node: &mut Node<Q, S>,
    workspace: &mut Workspace<Q>,
    letter: Option<&Letter<Q>>,
    half: Half<Q>,
) -> Effect<Q>
    requires ready { (c : Act _) × IsReadyStep Q.system node.old (outline_of (option_copied letter)) c half }
    requires few { letters.old.gone + length letters.old.kept + 1 < 2 ^ 64 }
    requires room { (0 < letters.old.room) × (0 < kept.old.room) }
    requires fits { (c : ChronicleView) (e : Event) → kept.old.all ≡ Some c → event_of half ≡ Some e → fault_of c.events e ≡ None }
    requires told { (c : ChronicleView) (m : Mark) → kept.old.all ≡ Some c → mark_of half ≡ Some m → IsMarked (with_event c.events (event_of half)) m }
    ensures node { (c : Act _) → IsReadyStep Q.system node.old (outline_of (option_copied letter.entry)) c half → node.new.state ≡ (made_by node.old.state c).node }
    ensures beside { (c : Act _) → IsReadyStep Q.system node.old (outline_of (option_copied letter.entry)) c half → node.new.beside ≡ beside_after node.old.state node.old.beside c }
    ensures effect { (c : Act _) (ls : List (LetterState _)) → IsReadyStep Q.system node.old (outline_of (option_copied letter.entry)) c half → length ls ≡ letters.old.gone + length letters.old.kept → result ≡ effect_in ls (made_by node.old.state c).deed.effect (made_by node.old.state c).letter }
    ensures letters { letters.new.kept ≡ with_letter letters.old.kept (letter_of half) }
    ensures window { (letters.new.gone ≡ letters.old.gone) × (letters.new.window ≡ letters.old.window) }
    ensures kept { Recorded (event_of half) (mark_of half) kept.old kept.new }
{
    let ended = node.end(half, letter);
    enter_ended(letters, kept, workspace, ended)
}

// The letter that goes out, the event and the mark go into the book, and the box of a call to the node's workspace. Returns what is
// reported.
#[inline(always)]
fn enter_ended<Q: Quorums>(
    letters: &mut Letters<Q>,
    kept: &mut Record,
    workspace: &mut Workspace<Q>,
    ended: Ended<Q>,
) -> Effect<Q>
    requires few { letters.old.gone + length letters.old.kept + 1 < 2 ^ 64 }
    requires room { (0 < letters.old.room) × (0 < kept.old.room) }
    requires fits { (c : ChronicleView) (e : Event) → kept.old.all ≡ Some c → event_in ended.going ≡ Some e → fault_of c.events e ≡ None }
    requires told { (c : ChronicleView) (m : Mark) → kept.old.all ≡ Some c → mark_in ended.going ≡ Some m → IsMarked (with_event c.events (event_in ended.going)) m }
    ensures effect { (ls : List (LetterState _)) → length ls ≡ letters.old.gone + length letters.old.kept → result ≡ effect_in ls ended.effect ended.letter }
    ensures letters { letters.new.kept ≡ with_letter letters.old.kept ended.letter }
    ensures window { (letters.new.gone ≡ letters.old.gone) × (letters.new.window ≡ letters.old.window) }
    ensures kept { Recorded (event_in ended.going) (mark_in ended.going) kept.old kept.new }
{
    let Ended {
        effect,
        letter,
        going,
    } = ended;
    record(kept, workspace, going);
    match letter {
        Some(letter) => send(letters, letter),
        None => effect,
    }
}

// A letter goes out: its number.
fn send<Q: Quorums>(letters: &mut Letters<Q>, letter: Letter<Q>) -> Effect<Q>
    requires few { letters.old.gone + length letters.old.kept + 1 < 2 ^ 64 }
    requires room { 0 < letters.old.room }
    ensures effect { result ≡ Effect.Sent (letters.old.gone + length letters.old.kept + 1) }
    ensures letters { letters.new.kept ≡ letters.old.kept ++ letter ∷ [] }
    ensures window { (letters.new.gone ≡ letters.old.gone) × (letters.new.window ≡ letters.old.window) }
{
    let number = letters.sent() as u64 + 1;
    letters.push(letter);
    Effect::Sent(number)
}

// A call that began or went on is recorded, if one did.
fn record<Q: Quorums>(kept: &mut Record, workspace: &mut Workspace<Q>, going: Option<Box<Going<Q>>>)
    requires room { 0 < kept.old.room }
    requires fits { (c : ChronicleView) (e : Event) → kept.old.all ≡ Some c → event_in going ≡ Some e → fault_of c.events e ≡ None }
    requires told { (c : ChronicleView) (m : Mark) → kept.old.all ≡ Some c → mark_in going ≡ Some m → IsMarked (with_event c.events (event_in going)) m }
    ensures kept { Recorded (event_in going) (mark_in going) kept.old kept.new }
{
    let Some(going) = going else {
        return;
    };
    let mut going = going;
    let deed = &mut going.deed;
    kept.take(&mut deed.event, &mut deed.mark);
    workspace.keep(going);
}
