//! What an outcome text says.
ghost use Rattle.std.specs.Prelude.{◌≡◌, ◌++◌, ◌∷◌, ◌+◌, ◌<◌, ◌^◌, [], ◌⊎◌, map, None, Some, IsSome, OnOk, IfErr, option_map, unwrap_or};
ghost use Rattle.std.specs.Map.{lookup};
ghost use Rattle.std.specs.Option.{option_copied};
ghost use Rattle.std.specs.Str.{bytes_eq};
ghost use Rattle.rambo_history.specs.Faults.{fault_of};
ghost use Rattle.rambo_placing.specs.Placings.{with_gets};
ghost use Rattle.rambo_text.specs.declared.fault.Fault.TheVariants as fault;
ghost use Rattle.rambo_text.specs.declared.version.Version.TheVariants as versions;
ghost use Rattle.rambo_text.specs.Versions.{head_lines};
ghost use Rattle.rambo_check.specs.declared.order.Placed.{Placed as AnyPlaced};
ghost use Rattle.rambo_check.specs.EvidenceStates.{no_evidence, passed, with_item};
ghost use Rattle.rambo_check.specs.Lines.{Happened, Ordered, OrderedAll};
ghost use Rattle.rambo_check.specs.Placings.{with_gets_placed};
ghost use Rattle.rambo_check.specs.Verdicts.{order_of, store_order_of, event_line_of, order_line_of};

use crate::order::{Order, Placed};
use indexmap::IndexMap;
use rambo_history::{CallId, Event, History, HistoryFault};
use rambo_names::{Bytes, Refusal};
use rambo_placing::Placing;
use rambo_text::{Fault, Version};
use std::alloc::Global;
use std::marker::Model;

/// The history that a text tells, the order of each key that has one, and that of all keys; and the lines that tell these.
pub(crate) struct Evidence {
    // How many lines are read.
    lines: u64,
    history: History,
    // The line of each event.
    event_lines: Vec<u64>,
    orders: IndexMap<Bytes, Placed>,
    order: Option<Placed>,
}

// By hand, so that those who drop it needn't follow all that is in it.
impl Drop for Evidence {
    fn drop(self) {
        let Evidence {
            lines: _lines,
            history: _history,
            event_lines: _event_lines,
            orders: _orders,
            order: _order,
        } = self;
    }
}

impl Model for Evidence {
    ghost use Rattle.std.specs.Prelude.{map, option_map};
    ghost use Rattle.rambo_check.specs.EvidenceStates.{EvidenceState};

    ghost Value = { EvidenceState };

    ghost view = { λ e. record {
      lines = e.lines;
      events = e.history.events;
      event_lines = e.event_lines.items;
      orders = map (λ o. (o.0, o.1.order)) e.orders.entries;
      order_lines = map (λ o. (o.0, o.1.line)) e.orders.entries;
      order = option_map (λ o. o.order) e.order;
      order_line = option_map (λ o. o.line) e.order;
    } };
}

impl Evidence {
    /// No call, no answer and no order.
    pub(crate) fn new(alloc: Global) -> Evidence
        ensures { result ≡ no_evidence versions.One }
    {
        Evidence {
            lines: 0,
            history: History::new(alloc),
            event_lines: Vec::new(alloc),
            orders: IndexMap::new(alloc),
            order: None,
        }
    }

    /// The lines that tell the version are read.
    pub(crate) fn begin(&mut self, version: Version)
        ensures { self.new ≡ record self.old { lines = head_lines version } }
    {
        self.lines = version.head_lines();
    }

    /// A line is read of which nothing is kept.
    pub(crate) fn pass(&mut self)
        requires { self.old.lines + 1 < 2 ^ 64 }
        ensures { self.new ≡ passed self.old }
    {
        self.lines += 1;
    }

    /// A line is read that tells the next event of the history.
    ///
    /// `BadHistory` where it can't be appended, and `OutOfMemory` where it can and there is no room for it.
    pub(crate) fn push(&mut self, event: Event) -> Result<(), Fault>
        requires { self.old.lines + 1 < 2 ^ 64 }
        ensures fits { OnOk result (fault_of self.old.events event ≡ None) }
        ensures pushed { OnOk result (self.new ≡ with_item self.old (Happened event)) }
        ensures fault { IfErr result (λ f. ((f ≡ fault.OutOfMemory) × (fault_of self.old.events event ≡ None)) ⊎ ((f ≡ fault.BadHistory) × IsSome (fault_of self.old.events event))) }
    {
        match self.history.push(event) {
            Ok(()) => {
                self.lines += 1;
                self.event_lines.push(self.lines)?;
                Ok(())
            }
            Err(HistoryFault::OutOfMemory) => Err(Fault::OutOfMemory),
            Err(HistoryFault::CalledTwice | HistoryFault::NotOpen | HistoryFault::WrongKind) => {
                Err(Fault::BadHistory)
            }
        }
    }

    /// A line is read that gives a key an order.
    ///
    /// `BadHistory` where the key has one, and `OutOfMemory` where it has none and there is no room for it.
    pub(crate) fn put(&mut self, key: Bytes, order: Order) -> Result<(), Fault>
        requires { self.old.lines + 1 < 2 ^ 64 }
        ensures fits { OnOk result (lookup (bytes_eq key) self.old.orders ≡ None) }
        ensures put { OnOk result (self.new ≡ with_item self.old (Ordered (record { key = key; calls = order }))) }
        ensures fault { IfErr result (λ f. ((f ≡ fault.OutOfMemory) × (lookup (bytes_eq key) self.old.orders ≡ None)) ⊎ ((f ≡ fault.BadHistory) × IsSome (lookup (bytes_eq key) self.old.orders))) }
    {
        self.lines += 1;
        let line = self.lines;
        match self.orders.insert(key, Placed { order, line }) {
            Ok(None) => Ok(()),
            Ok(Some(_)) => Err(Fault::BadHistory),
            Err(_) => Err(Fault::OutOfMemory),
        }
    }

    /// A line is read that gives all keys an order.
    ///
    /// `BadHistory` where they have one.
    pub(crate) fn put_order(&mut self, order: Order) -> Result<(), Fault>
        requires { self.old.lines + 1 < 2 ^ 64 }
        ensures fits { OnOk result (self.old.order ≡ None) }
        ensures put { OnOk result (self.new ≡ with_item self.old (OrderedAll order)) }
        ensures fault { IfErr result (λ f. (f ≡ fault.BadHistory) × IsSome self.old.order) }
    {
        if self.order.is_some() {
            return Err(Fault::BadHistory);
        }
        self.lines += 1;
        let line = self.lines;
        self.order = Some(Placed { order, line });
        Ok(())
    }

    /// Puts the gets of each key that has an order in their places there.
    ///
    /// `OutOfMemory` where there is no room for these orders, or for what places the gets.
    pub(crate) fn place_gets(&mut self) -> Result<(), Refusal>
        ensures placed { OnOk result (self.new ≡ with_gets_placed self.old) }
        ensures refused { IfErr result (λ r. r ≡ Refusal.OutOfMemory) }
    {
        let placing = Placing::new(&self.history)?;
        place_each(&placing, &mut self.orders)?;
        Ok(())
    }

    /// The history.
    pub(crate) fn history(&self) -> &History
        ensures { result.now.events ≡ self.now.events }
    {
        &self.history
    }

    /// The keys that have an order.
    pub(crate) fn keys(&self) -> &[Bytes]
        ensures { result.now ≡ map (λ o. o.0) self.now.orders }
    {
        self.orders.keys().as_slice()
    }

    /// The keys that have an order, each with it.
    pub(crate) fn orders(&self) -> &IndexMap<Bytes, Placed>
        ensures { map (λ o. (o.0, o.1.order)) result.now.entries ≡ self.now.orders }
    {
        &self.orders
    }

    /// The order of all keys, if there is one.
    pub(crate) fn told_order(&self) -> Option<&Placed>
        ensures { option_map (λ (p : AnyPlaced). p.order) (option_copied result) ≡ self.now.order }
    {
        self.order.as_ref()
    }

    /// The order of a key: the empty one where it has none.
    pub(crate) fn order(&self, key: &Bytes) -> &[CallId]
        ensures { result.now ≡ order_of self.now key.now }
    {
        calls_of(self.orders.get(key))
    }

    /// The order of all keys: the empty one where they have none.
    pub(crate) fn store_order(&self) -> &[CallId]
        ensures { result.now ≡ store_order_of self.now }
    {
        calls_of(self.order.as_ref())
    }

    /// The line that tells the order of a key, or that of all keys where no key is told; None where no line does.
    pub(crate) fn order_line(&self, key: Option<&Bytes>) -> Option<u64>
        ensures { result ≡ order_line_of self.now (option_copied key.entry) }
    {
        match key {
            Some(key) => line_of(self.orders.get(key)),
            None => line_of(self.order.as_ref()),
        }
    }

    /// The line of the event at a place of the history; 0 where there is none.
    pub(crate) fn event_line(&self, place: Option<usize>) -> u64
        ensures { result ≡ event_line_of self.now place }
    {
        match place {
            Some(place) => match self.event_lines.get(place) {
                Some(line) => *line,
                None => 0,
            },
            None => 0,
        }
    }
}

// Puts the gets of each key in their places in its order.
fn place_each(placing: &Placing<'_>, orders: &mut IndexMap<Bytes, Placed>) -> Result<(), Refusal>
    ensures placed { OnOk result (orders.new.entries ≡ map (λ e. (e.0, record e.1 { order = with_gets placing.now e.0 e.1.order })) orders.old.entries) }
    ensures refused { IfErr result (λ r. r ≡ Refusal.OutOfMemory) }
{
    for place in 0..orders.len() {
        let (key, placed) = orders.pair_mut(place);
        let calls = placing.with_gets(key, placed.order.calls.as_slice())?;
        placed.order = Order { calls };
    }
    Ok(())
}

// The line that tells an order, if there is one.
fn line_of(placed: Option<&Placed>) -> Option<u64>
    ensures { result ≡ option_map (λ (p : AnyPlaced). p.line) (option_copied placed.entry) }
{
    match placed {
        Some(placed) => Some(placed.line),
        None => None,
    }
}

// The calls of an order: none where there is no order.
fn calls_of(placed: Option<&Placed>) -> &[CallId]
    ensures { result.now ≡ unwrap_or (option_map (λ (p : AnyPlaced). p.order) (option_copied placed.entry)) [] }
{
    match placed {
        Some(placed) => placed.order.calls.as_slice(),
        None => &[],
    }
}
