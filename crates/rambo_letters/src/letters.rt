//! All letters that were ever sent.
ghost use Rattle.std.specs.Prelude.{◌≡◌, ◌-◌, ◌<◌, ◌++◌, ◌∷◌, [], List, Some, length, slice_get, OnOk, OnErr, IfErr, IfOk, IsTrue};
ghost use Rattle.rambo_gossip.specs.Letters.{kind_of};
ghost use Rattle.rambo_gossip.specs.Outlines.{outlined, standing_of};
ghost use Rattle.rambo_gossip.specs.declared.standing.Standing.{Standing};
ghost use Rattle.rambo_letters.specs.Kept.{sent_at};
ghost use Rattle.rambo_letters.specs.Shared.{gossip_in, sent_in, IsHeld};

use crate::outline::Outline;
use crate::sent::Sent;
use rambo_gossip::{GossipOutline, LetterOutline, Standing};
use rambo_names::{Members, Name, Quorums, Refusal};
use std::alloc::Global;
use std::marker::Model;

/// All letters that were ever sent: the first one is letter 1.
pub struct Letters<Q: Quorums> {
    list: Vec<Sent>,
    standings: Vec<Standing<Q>>,
    // The place of what each sender reported last, of the names 1, 2, .. in turn; 0 before that.
    latest: [usize; 64],
    // Never filled: it tells the prover that a standing has a size, which it doesn't see through a `Vec`.
    spare: Option<Standing<Q>>,
}

// By hand, so that those who drop it needn't follow all that is in it.
impl<Q: Quorums> Drop for Letters<Q> {
    fn drop(self) {
        let Letters {
            list: _list,
            standings: _standings,
            latest: _latest,
            spare: _spare,
        } = self;
    }
}

impl<Q: Quorums> Model for Letters<Q> {
    ghost use Rattle.std.specs.Prelude.{List, length, map};
    ghost use Rattle.std.specs.Coded.{codes};
    ghost use Rattle.rambo_names.specs.Names.{names_code};
    ghost use Rattle.rambo_tag.specs.Copies.{copies_code};
    ghost use Rattle.rambo_letters.specs.Kept.{SentState};
    ghost use Rattle.rambo_letters.specs.Shared.{sent_in, AreHeld};

    ghost Value = { List (SentState Q) };

    ghost coded = { Prim.hlevel (codes, names_code, copies_code, Q.code) };

    ghost view = { λ l. map (sent_in l.standings.items) l.list.items };

    ghost invariant = { λ l. AreHeld (length l.standings.items) l.list.items };
}

impl<Q: Quorums> Letters<Q> {
    /// No letter.
    pub fn new(alloc: Global) -> Self
        ensures { result ≡ [] }
    {
        Letters {
            list: Vec::new(alloc),
            standings: Vec::new(alloc),
            latest: [0; 64],
            spare: None,
        }
    }

    /// How many letters were sent.
    pub fn len(&self) -> usize
        ensures { result ≡ length self.now }
    {
        self.list.len()
    }

    /// Makes room for this many more letters.
    ///
    /// `OutOfMemory` where there is none. In either case the letters are unchanged.
    pub fn reserve(&mut self, count: usize) -> Result<(), Refusal>
        ensures same { self.new ≡ self.old }
        ensures refused { IfErr result (λ r. r ≡ Refusal.OutOfMemory) }
    {
        Ok(self.list.reserve(count)?)
    }

    /// The letter of a number, from 1 on, if it was sent. It allocates nothing.
    // (who looks at a part of it needn't read the rest, where this is inlined)
    #[inline(always)]
    pub fn get(&self, number: u64) -> Option<Outline<'_, Q>>
        ensures { result ≡ sent_at self.now number }
    {
        if number == 0 {
            return None;
        }
        let place = number as usize - 1;
        if place >= self.list.len() {
            return None;
        }
        Some(read(self.standings.as_slice(), self.list[place]))
    }

    /// Appends a letter.
    ///
    /// `OutOfMemory` where there is no room for it; the letters are then as they were.
    pub fn push(&mut self, outline: &Outline<'_, Q>) -> Result<(), Refusal>
        ensures ok { OnOk result (self.new ≡ self.old ++ outline.now ∷ []) }
        ensures err { OnErr result (self.new ≡ self.old) }
        ensures refused { IfErr result (λ r. r ≡ Refusal.OutOfMemory) }
    {
        let sender = place_of(outline.letter.sender);
        self.list.reserve(1)?;
        let sent = keep(&mut self.standings, self.latest[sender], outline)?;
        self.latest[sender] = sent.standing;
        self.list.push_reserved(sent);
        Ok(())
    }
}

// A letter that is kept.
#[inline(always)]
fn read<Q: Quorums>(standings: &[Standing<Q>], sent: Sent) -> Outline<'_, Q>
    ensures { result ≡ sent_in standings.now sent }
{
    let (sender, addressee, told) = (sent.sender, sent.addressee, sent.told);
    let gossip = read_gossip(standings, sent);
    let letter = LetterOutline {
        sender,
        addressee,
        gossip,
    };
    Outline { letter, told }
}

// What a letter that is kept says.
#[inline(always)]
fn read_gossip<Q: Quorums>(standings: &[Standing<Q>], sent: Sent) -> Option<GossipOutline<'_, Q>>
    ensures { outlined result ≡ kind_of (gossip_in standings.now sent) }
{
    if !sent.gossips {
        return None;
    }
    match standings.get(sent.standing) {
        Some(standing) => Some(GossipOutline {
            known: sent.known,
            map: &standing.map,
            number: sent.number,
            heard: sent.heard,
            vote: &standing.vote,
            offer: standing.offer,
        }),
        None => None,
    }
}

// A letter as it is stored, where its sender reported last what is at a place.
fn keep<Q: Quorums>(
    standings: &mut Vec<Standing<Q>>,
    latest: usize,
    outline: &Outline<'_, Q>,
) -> Result<Sent, Refusal>
    ensures kept { IfOk result (λ s. sent_in standings.new.items s ≡ outline.now) }
    ensures held { IfOk result (IsHeld (length standings.new.items)) }
    ensures grows { (more : List (Standing _)) × (standings.new.items ≡ standings.old.items ++ more) }
    ensures refused { IfErr result (λ r. r ≡ Refusal.OutOfMemory) }
{
    let letter = &outline.letter;
    match &letter.gossip {
        None => Ok(Sent {
            told: outline.told,
            known: Members::empty(),
            standing: 0,
            number: 0,
            heard: 0,
            sender: letter.sender,
            addressee: letter.addressee,
            gossips: false,
        }),
        Some(gossip) => Ok(Sent {
            told: outline.told,
            known: gossip.known,
            standing: shared(standings, latest, gossip)?,
            number: gossip.number,
            heard: gossip.heard,
            sender: letter.sender,
            addressee: letter.addressee,
            gossips: true,
        }),
    }
}

// The place of what gossip reports of configurations: the latest one where that is the same, and else a new one.
fn shared<Q: Quorums>(
    standings: &mut Vec<Standing<Q>>,
    latest: usize,
    gossip: &GossipOutline<'_, Q>,
) -> Result<usize, Refusal>
    ensures at { IfOk result (λ place. slice_get standings.new.items place ≡ Some (standing_of gossip.now)) }
    ensures grows { (more : List (Standing _)) × (standings.new.items ≡ standings.old.items ++ more) }
    ensures refused { IfErr result (λ r. r ≡ Refusal.OutOfMemory) }
{
    if is_told_at(standings.as_slice(), latest, gossip) {
        return Ok(latest);
    }
    added(standings, gossip)
}

// The place of what gossip reports of configurations, after the others. (few letters come here, and where this is
// inlined all of them clear its room)
#[inline(never)]
fn added<Q: Quorums>(
    standings: &mut Vec<Standing<Q>>,
    gossip: &GossipOutline<'_, Q>,
) -> Result<usize, Refusal>
    ensures at { IfOk result (λ place. slice_get standings.new.items place ≡ Some (standing_of gossip.now)) }
    ensures grows { (more : List (Standing _)) × (standings.new.items ≡ standings.old.items ++ more) }
    ensures refused { IfErr result (λ r. r ≡ Refusal.OutOfMemory) }
{
    let count = standings.len();
    standings.push(Standing::of(gossip))?;
    Ok(count)
}

// Whether gossip reports of configurations what is at a place.
fn is_told_at<Q: Quorums>(
    standings: &[Standing<Q>],
    place: usize,
    gossip: &GossipOutline<'_, Q>,
) -> bool
    ensures { IsTrue result → slice_get standings.now place ≡ Some (standing_of gossip.now) }
{
    match standings.get(place) {
        Some(standing) => standing.is_told_by(gossip),
        None => false,
    }
}

// Where what a name reported last is.
fn place_of(name: Name) -> usize
    ensures place { result ≡ name - 1 }
    ensures within { result < 64 }
{
    name.number() as usize - 1
}
