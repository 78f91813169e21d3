//! The nodes of a world, and the logs of their copies.
ghost use Rattle.std.specs.Prelude.{◌≡◌, ◌≢◌, ◌+◌, ◌-◌, ◌<◌, ◌≤◌, max, List, [], None, Some, length, replicate, slice_get, slice_set, OnOk, OnErr, IfOk, IfErr};
ghost use Rattle.std.specs.Borrow.{sem};
ghost use Rattle.rambo_names.specs.Names.{IsName, rising};
ghost use Rattle.rambo_tag.specs.declared.keyed_version.KeyedVersion.{KeyedVersion};
ghost use Rattle.rambo_gossip.specs.Kinds as kind;
ghost use Rattle.rambo_gossip.specs.Letters.{letter_with};
ghost use Rattle.rambo_tag.specs.Copies.{joined};
ghost use Rattle.rambo_tag.specs.Logs.{greatest_of};
ghost use Rattle.rambo_logs.specs.NodeLogs as node_logs;
ghost use Rattle.rambo_logs.specs.NodeLogs.{extended, part};
ghost use Rattle.std.specs.Option.{IsSomeAnd};
ghost use Rattle.rambo_node.specs.Acts as act;
ghost use Rattle.rambo_node.specs.Changes.{refusal_of, made_by, quiet_deed};
ghost use Rattle.rambo_node.specs.Nodes.{NodeState, RoomyNode, first_node};
ghost use Rattle.rambo_node.specs.Prepared.{IsAlone, IsFound, IsMoving};
ghost use Rattle.rambo_run.specs.Runs.{maps_of};
ghost use Rattle.rambo_run.specs.Worlds.{first_nodes};
ghost use Rattle.rambo_world.specs.Kept.{KeptNode, states_of, logs_of, node_states, state_at, kept_at, log_at, moved, outline, outline_by, AllGrow, SameBarRoom};
ghost use Rattle.rambo_world.specs.Hearing.{hear_refusal, lacked_of, told_by, HasHeard, HasMet, IsHeard, IsUnheard};
ghost use Rattle.rambo_world.specs.Pairs.{lends_both, AreBoth};
ghost use Rattle.rambo_world.specs.Logging.{listed};
ghost use Rattle.rambo_world.specs.Direct.{told_refusal};

use rambo_config_map::Places;
use rambo_gossip::LetterOutline;
use rambo_history::{CallId, Op};
use rambo_letters::Outline;
use rambo_logs::Logs;
use rambo_names::{Name, Quorums, Refusal};
use rambo_node::{Deed, Moving, Node};
use rambo_run::NodeMap;
use rambo_tag::{KeyedVersion, Pack, Replica};
use std::alloc::Global;
use std::marker::Model;

/// The nodes of the names 1 to 64, and of each the log of the copies that its registers took.
pub(crate) struct Nodes<Q: Quorums, S: Replica> {
    list: Vec<Node<Q, S>>,
    logs: Logs,
    alloc: Global,
    // Never used: it tells the prover that a node has a size, which it doesn't see through a `Vec`.
    spare: Node<Q, S>,
}

// By hand, so that those who drop it needn't follow all that is in it.
impl<Q: Quorums, S: Replica> Drop for Nodes<Q, S> {
    fn drop(self) {
        let Nodes {
            list: _list,
            logs: _logs,
            alloc: _alloc,
            spare: _spare,
        } = self;
    }
}

impl<Q: Quorums, S: Replica> Model for Nodes<Q, S> {
    ghost use Rattle.std.specs.Prelude.{◌≡◌, List, length};
    ghost use Rattle.std.specs.Coded.{codes};
    ghost use Rattle.rambo_names.specs.Names.{names_code};
    ghost use Rattle.rambo_tag.specs.Copies.{copies_code};
    ghost use Rattle.rambo_tag.specs.Stamps.{stamps_code};
    ghost use Rattle.rambo_world.specs.Kept.{KeptNode, kept_of};

    ghost Value = { List (KeptNode Q) };

    ghost coded = { Prim.hlevel (codes, names_code, copies_code, stamps_code, Q.code) };

    ghost view = { λ n. kept_of n.list.items n.logs.logs };

    ghost invariant = { λ n. (length n.list.items ≡ 64) × (length n.logs.logs ≡ 64) };
}

impl<Q: Quorums, S: Replica> Nodes<Q, S> {
    ghost use Rattle.rambo_world.specs.Lending.{lends_node};

    // The nodes of the names 1 to 64 before any step. The copies of each are made by `fresh` of a replica.
    pub(crate) fn new(alloc: Global, founders: Q, replica: &S) -> Result<Self, Refusal>
        ensures states { IfOk result (λ n. states_of n ≡ first_nodes Q.system founders (rising 64 1)) }
        ensures logs { IfOk result (λ n. logs_of n ≡ replicate 64 []) }
        ensures refused { IfErr result (λ r. r ≡ Refusal.OutOfMemory) }
    {
        let logs = Logs::new(alloc)?;
        let list = first_nodes(alloc, founders, replica)?;
        let spare = first_node(alloc, 1, founders, replica)?;
        Ok(Nodes {
            list,
            logs,
            alloc,
            spare,
        })
    }

    // The node of a name.
    pub(crate) fn node(&self, name: Name) -> &Node<Q, S>
        ensures { state_at self.now name ≡ Some result.now.state }
    {
        &self.list[place_of(name)]
    }

    // The node of a name, to be changed: its log stays.
    pub(crate) fn node_mut(&mut self, name: Name) -> &mut Node<Q, S>
        ensures* lent { sem 𝓛 (lends_node Q.row S.row Q.Quorums.own Q.PartialEq S.Replica self.entry name result) }
        ensures kept { kept_at self.old name ≡ Some (record { node = result.now; log = log_at self.old name }) }
        ensures named { IsName name }
    {
        &mut self.list[place_of(name)]
    }

    // The maps of the nodes that aren't idle.
    pub(crate) fn maps(&self, alloc: Global) -> Result<Vec<NodeMap<Q>>, Refusal>
        ensures maps { IfOk result (λ maps. maps.items ≡ maps_of (states_of self.now)) }
        ensures refused { IfErr result (λ r. r ≡ Refusal.OutOfMemory) }
    {
        maps_of(alloc, self.list.as_slice())
    }

    // A node takes a call that it doesn't refuse. Returns the call.
    pub(crate) fn call(&mut self, name: Name, op: Op) -> Result<CallId, Refusal>
        requires { (x : NodeState Q) → state_at self.old name ≡ Some x → refusal_of Q.system x (act.Call op) ≡ None }
        ensures nodes { OnOk result (states_of self.new ≡ moved self.old name (λ x. (made_by x (act.Call op)).node)) }
        ensures id { IfOk result (λ id. (x : NodeState Q) → state_at self.old name ≡ Some x → id ≡ record { name = x.name; number = x.made + 1 }) }
        ensures refused { IfErr result (λ r. r ≡ Refusal.OutOfMemory) }
        ensures err { OnErr result (SameBarRoom self.old self.new) }
        ensures grow { AllGrow self.old self.new }
    {
        let node = self.node_mut(name);
        node.ready_call()?;
        Ok(node.finish_call(op))
    }

    // The first half of the advance of a call that may advance, and was found there: the nodes stay as they are. What it
    // will do is written to `deed`, which has nothing yet.
    pub(crate) fn ready_advance(
        &mut self,
        moving: &mut Moving,
        deed: &mut Deed<Q>,
    ) -> Result<(), Refusal>
        requires found { (x : NodeState Q) → state_at self.old moving.old.id.name ≡ Some x → IsFound Q.system x moving.old.id moving.old.found }
        requires alone { IsAlone moving.old }
        requires quiet { deed.old ≡ quiet_deed }
        ensures same { SameBarRoom self.old self.new }
        ensures id { OnOk result (moving.new.id ≡ moving.old.id) }
        ensures moving { OnOk result ((k : KeptNode Q) → kept_at self.new moving.old.id.name ≡ Some k → IsMoving Q.system k.node moving.new) }
        ensures deed { OnOk result ((x : NodeState Q) → state_at self.old moving.old.id.name ≡ Some x → deed.new ≡ (made_by x (act.Advance moving.old.id)).deed) }
        ensures refused { IfErr result (λ r. r ≡ Refusal.OutOfMemory) }
    {
        self.node_mut(moving.id.name).ready_advance(moving, deed)
    }

    // The second half of the advance of a call that is ready: the copy that it puts goes from `deed` into the log of its
    // node.
    pub(crate) fn finish_advance(
        &mut self,
        moving: &mut Moving,
        deed: &mut Deed<Q>,
    ) -> Result<(), Refusal>
        requires moving { (k : KeptNode Q) → kept_at self.old moving.old.id.name ≡ Some k → IsMoving Q.system k.node moving.old }
        requires deed { (x : NodeState Q) → state_at self.old moving.old.id.name ≡ Some x → deed.old ≡ (made_by x (act.Advance moving.old.id)).deed }
        ensures nodes { OnOk result (states_of self.new ≡ moved self.old moving.old.id.name (λ x. (made_by x (act.Advance moving.old.id)).node)) }
        ensures deed { OnOk result (deed.new ≡ record deed.old { copy = None }) }
        ensures refused { IfErr result (λ r. r ≡ Refusal.OutOfMemory) }
        ensures err { OnErr result (SameBarRoom self.old self.new) }
        ensures grow { AllGrow self.old self.new }
    {
        let name = moving.id.name;
        make_log_room(&mut self.logs, name, &deed.copy)?;
        self.list[place_of(name)].finish_advance(moving);
        log_copy(&mut self.logs, name, &mut deed.copy);
        Ok(())
    }

    // The addressee of a letter hears it, unless it refuses it: with those copies of its sender's log from one place up to
    // another, as far as there are any, that the addressee lacks. It makes the same of them as of all.
    pub(crate) fn hear(
        &mut self,
        letter: &LetterOutline<'_, Q>,
        start: usize,
        end: usize,
    ) -> Result<Result<(), Refusal>, Refusal>
        requires join { letter.now.kind ≡ kind.Join → end ≤ start }
        ensures told { IfOk result (λ r. told_refusal r ≡ hear_refusal Q.system self.old letter.now) }
        ensures heard { IfOk result (λ r. OnOk r (IsHeard self.old self.new letter.now start end)) }
        ensures stays { IfOk result (λ r. OnErr r (SameBarRoom self.old self.new)) }
        ensures accepted { OnErr result (hear_refusal Q.system self.old letter.now ≡ None) }
        ensures refused { IfErr result (λ r. r ≡ Refusal.OutOfMemory) }
        ensures err { OnErr result (SameBarRoom self.old self.new) }
        ensures grow { AllGrow self.old self.new }
    {
        let node = &mut self.list[place_of(letter.addressee)];
        hear(node, &mut self.logs, self.alloc, letter, start, end)
    }

    // A node hears the letter that another has for it, unless it refuses it: of its copies, those from a place on that
    // the node lacks. Returns how many copies the letter has.
    pub(crate) fn pass(
        &mut self,
        from: Name,
        to: Name,
        start: usize,
    ) -> Result<Result<usize, Refusal>, Refusal>
        requires apart { from ≢ to }
        requires named { (k : KeptNode Q) → kept_at self.old from ≡ Some k → k.node.state.name ≡ from }
        ensures refusal { IfOk result (λ r. (k : KeptNode Q) → kept_at self.old from ≡ Some k → told_refusal r ≡ hear_refusal Q.system self.old (outline k to).letter) }
        ensures told { IfOk result (λ r. IfOk r (λ told. (k : KeptNode Q) → kept_at self.old from ≡ Some k → told ≡ (outline k to).told)) }
        ensures heard { IfOk result (λ r. IfOk r (λ told. (k : KeptNode Q) → kept_at self.old from ≡ Some k → IsHeard self.old self.new (outline k to).letter start (max start told))) }
        ensures stays { IfOk result (λ r. OnErr r (SameBarRoom self.old self.new)) }
        ensures accepted { OnErr result ((k : KeptNode Q) → kept_at self.old from ≡ Some k → hear_refusal Q.system self.old (outline k to).letter ≡ None) }
        ensures refused { IfErr result (λ r. r ≡ Refusal.OutOfMemory) }
        ensures err { OnErr result (SameBarRoom self.old self.new) }
        ensures grow { AllGrow self.old self.new }
    {
        let nodes = self.list.as_mut_slice();
        meet(nodes, &mut self.logs, self.alloc, from, to, start)
    }

    // The letter of a node to another, as it is stored.
    pub(crate) fn outline(&self, from: Name, to: Name) -> Outline<'_, Q>
        ensures sent { (k : KeptNode Q) → kept_at self.now from ≡ Some k → result ≡ outline k to }
        ensures named { IsName from }
    {
        outline_of(&self.list[place_of(from)], to, self.logs.len(from))
    }
}

// The node of a name hears the letter that another has for it, unless it refuses it: of its copies, those from a place
// on that its log lacks. Returns how many copies the letter has.
fn meet<Q: Quorums, S: Replica>(
    nodes: &mut [Node<Q, S>],
    logs: &mut Logs,
    alloc: Global,
    from: Name,
    to: Name,
    start: usize,
) -> Result<Result<usize, Refusal>, Refusal>
    requires count { length nodes.old ≡ 64 }
    requires apart { from ≢ to }
    requires named { (x : RoomyNode Q) → slice_get nodes.old (from - 1) ≡ Some x → x.state.name ≡ from }
    ensures met { (x y : RoomyNode Q) → slice_get nodes.old (from - 1) ≡ Some x → slice_get nodes.old (to - 1) ≡ Some y → (z : RoomyNode Q) × (nodes.new ≡ slice_set nodes.old (to - 1) z) × HasMet Q.system y z logs.old.logs logs.new.logs (told_by x.state to logs.old.logs) start result }
    ensures from { IsName from }
    ensures to { IsName to }
    ensures refused { IfErr result (λ r. r ≡ Refusal.OutOfMemory) }
{
    let (sender, addressee) = two_of(nodes, place_of(from), place_of(to));
    let Outline { letter, told } = outline_of(sender, to, logs.len(from));
    match hear(addressee, logs, alloc, &letter, start, start.max(told))? {
        Ok(()) => Ok(Ok(told)),
        Err(refusal) => Ok(Err(refusal)),
    }
}

// A node hears a letter for it, unless it refuses it: with those copies of its sender's log from one place up to another, as far
// as there are any, that its own lacks.
fn hear<Q: Quorums, S: Replica>(
    node: &mut Node<Q, S>,
    logs: &mut Logs,
    alloc: Global,
    letter: &LetterOutline<'_, Q>,
    start: usize,
    end: usize,
) -> Result<Result<(), Refusal>, Refusal>
    requires join { letter.now.kind ≡ kind.Join → end ≤ start }
    ensures told { IfOk result (λ r. told_refusal r ≡ refusal_of Q.system node.old.state (act.Hear letter.now)) }
    ensures heard { IfOk result (λ r. OnOk r (HasHeard node.old node.new logs.old.logs logs.new.logs letter.now start end)) }
    ensures stays { IfOk result (λ r. OnErr r (IsUnheard node.old node.new logs.old.logs logs.new.logs)) }
    ensures accepted { OnErr result (refusal_of Q.system node.old.state (act.Hear letter.now) ≡ None) }
    ensures refused { IfErr result (λ r. r ≡ Refusal.OutOfMemory) }
    ensures err { OnErr result (IsUnheard node.old node.new logs.old.logs logs.new.logs) }
{
    if let Err(refusal) = node.may_hear(letter) {
        return Ok(Err(refusal));
    }
    let copies = bring(logs, alloc, letter, start, end)?;
    hear_with(node, letter, copies)?;
    take_on(logs, letter.addressee, start, end);
    Ok(Ok(()))
}

// Brings the addressee of a letter those copies of its sender's log from one place up to another, as far as there are any, that
// its own log lacks, and gives them.
#[inline(always)]
fn bring<Q: Quorums>(
    logs: &mut Logs,
    alloc: Global,
    letter: &LetterOutline<'_, Q>,
    start: usize,
    end: usize,
) -> Result<Pack, Refusal>
    ensures given { IfOk result (λ p. p ≡ greatest_of (lacked_of logs.old.logs letter.now start end)) }
    ensures brought { OnOk result (start < end → logs.new.brought ≡ Some (record { to = letter.now.addressee; copies = lacked_of logs.old.logs letter.now start end })) }
    ensures enough { OnOk result (joined (greatest_of (node_logs.log_at logs.old.logs letter.now.addressee)) (greatest_of (lacked_of logs.old.logs letter.now start end)) ≡ joined (greatest_of (node_logs.log_at logs.old.logs letter.now.addressee)) (greatest_of (part (node_logs.log_at logs.old.logs letter.now.sender) start end))) }
    ensures same { logs.new.logs ≡ logs.old.logs }
    ensures refused { IfErr result (λ r. r ≡ Refusal.OutOfMemory) }
{
    if end <= start {
        return Ok(Pack::empty(alloc));
    }
    logs.bring(letter.addressee, letter.sender, start, end)
}

// What was brought to a name of a part from one place up to another, if there is any, goes to the end of its log.
#[inline(always)]
fn take_on(logs: &mut Logs, to: Name, start: usize, end: usize)
    requires { start < end → IsSomeAnd logs.old.brought (λ b. b.to ≡ to) }
    ensures { (more : List KeyedVersion) → (start < end → logs.old.brought ≡ Some (record { to = to; copies = more })) → (end ≤ start → more ≡ []) → logs.new.logs ≡ extended logs.old.logs to more }
{
    if start < end {
        logs.take_on(to);
    }
}

// A node hears a letter that isn't refused, with these copies.
#[inline(always)]
fn hear_with<Q: Quorums, S: Replica>(
    node: &mut Node<Q, S>,
    letter: &LetterOutline<'_, Q>,
    copies: Pack,
) -> Result<(), Refusal>
    requires { refusal_of Q.system node.old.state (act.Hear letter.now) ≡ None }
    ensures node { OnOk result (node.new.state ≡ (made_by node.old.state (act.Hear (letter_with letter.now copies))).node) }
    ensures refused { IfErr result (λ r. r ≡ Refusal.OutOfMemory) }
    ensures err { OnErr result (node.new.state ≡ node.old.state) }
{
    let hearing = node.ready_hear(letter, copies)?;
    node.finish_hear(letter, hearing);
    Ok(())
}

// The letter of a node to another, as it is stored, where the node's log has this many copies: a joining node sends
// none.
fn outline_of<Q: Quorums, S: Replica>(node: &Node<Q, S>, to: Name, logged: usize) -> Outline<'_, Q>
    ensures { result ≡ outline_by node.now.state to logged }
{
    let told = if node.status().is_active() { logged } else { 0 };
    Outline {
        letter: node.outline_for(to),
        told,
    }
}

// The items of two places of a list.
fn two_of<T>(items: &mut [T], first: usize, second: usize) -> (&mut T, &mut T)
    requires within { first < length items.old }
    requires both { second < length items.old }
    requires apart { first ≢ second }
    ensures* lent { sem 𝓛 (lends_both T.row items.entry first second result) }
    ensures items { AreBoth items.old first second result.0.now result.1.now }
{
    if first < second {
        let (front, back) = items.split_at_mut(second);
        (&mut front[first], &mut back[0])
    } else {
        let (front, back) = items.split_at_mut(first);
        (&mut back[0], &mut front[second])
    }
}

// The node of a number before any step.
fn first_node<Q: Quorums, S: Replica>(
    alloc: Global,
    number: u64,
    founders: Q,
    replica: &S,
) -> Result<Node<Q, S>, Refusal>
    requires { IsName number }
    ensures first { IfOk result (λ x. x.state ≡ first_node Q.system founders number) }
    ensures refused { IfErr result (λ r. r ≡ Refusal.OutOfMemory) }
{
    let name = Name::new(number)?;
    Ok(Node::new(alloc, name, founders, replica.fresh()?))
}

// The nodes of the names 1 to 64 before any step.
fn first_nodes<Q: Quorums, S: Replica>(
    alloc: Global,
    founders: Q,
    replica: &S,
) -> Result<Vec<Node<Q, S>>, Refusal>
    ensures first { IfOk result (λ xs. node_states xs.items ≡ first_nodes Q.system founders (rising 64 1)) }
    ensures refused { IfErr result (λ r. r ≡ Refusal.OutOfMemory) }
{
    let mut list = Vec::new(alloc);
    for place in 0..64 {
        list.push(first_node(alloc, place + 1, founders, replica)?)?;
    }
    Ok(list)
}

// Makes room in the log of a name for a copy, if there is one.
#[inline(always)]
fn make_log_room(logs: &mut Logs, name: Name, copy: &Option<KeyedVersion>) -> Result<(), Refusal>
    ensures same { logs.new.logs ≡ logs.old.logs }
    ensures room { OnOk result ((c : KeyedVersion) → copy.now ≡ Some c → logs.new.room ≡ Some (record { name = name; key = c.key })) }
    ensures refused { IfErr result (λ r. r ≡ Refusal.OutOfMemory) }
{
    match copy {
        Some(copy) => {
            logs.reserve(name, &copy.key)?;
            Ok(())
        }
        None => Ok(()),
    }
}

// Puts a copy, if there is one, at the end of the log of a name, where room was made for it.
// (most deeds have none, and room for one isn't moved then)
fn log_copy(logs: &mut Logs, name: Name, copy: &mut Option<KeyedVersion>)
    requires { (c : KeyedVersion) → copy.old ≡ Some c → logs.old.room ≡ Some (record { name = name; key = c.key }) }
    ensures logged { logs.new.logs ≡ extended logs.old.logs name (listed copy.old) }
    ensures taken { copy.new ≡ None }
{
    if copy.is_none() {
        return;
    }
    if let Some(copy) = copy.take() {
        logs.put(name, copy);
    }
}

// The maps of those nodes that aren't idle.
fn maps_of<Q: Quorums, S: Replica>(
    alloc: Global,
    nodes: &[Node<Q, S>],
) -> Result<Vec<NodeMap<Q>>, Refusal>
    ensures maps { IfOk result (λ maps. maps.items ≡ maps_of (node_states nodes.now)) }
    ensures refused { IfErr result (λ r. r ≡ Refusal.OutOfMemory) }
{
    let mut maps = Vec::new(alloc);
    for node in nodes {
        if !node.status().is_idle() {
            let map = node.map();
            maps.push(NodeMap {
                name: node.name(),
                floor: map.floor(),
                active: configs_of(alloc, map.places())?,
            })?;
        }
    }
    Ok(maps)
}

// The configurations of a row of places.
fn configs_of<Q: Quorums>(alloc: Global, places: &Places<Q>) -> Result<Vec<Q>, Refusal>
    ensures all { IfOk result (λ configs. configs.items ≡ places.now.configs) }
    ensures refused { IfErr result (λ r. r ≡ Refusal.OutOfMemory) }
{
    let mut configs = Vec::new(alloc);
    configs.reserve(places.len())?;
    for index in 0..places.len() {
        match places.get(index) {
            Some(config) => configs.push(config)?,
            None => {}
        }
    }
    Ok(configs)
}

// Where the node of a name is.
pub(crate) fn place_of(name: Name) -> usize
    ensures place { result ≡ name - 1 }
    ensures within { result < 64 }
    ensures named { IsName name }
{
    name.number() as usize - 1
}
