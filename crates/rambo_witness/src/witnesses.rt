//! The witnesses of a history's orders.
ghost use Rattle.std.specs.Prelude.{◌≡◌, Some, None, IfOk, IfErr};
ghost use Rattle.std.specs.Option.{option_copied};
ghost use Rattle.rambo_atomic.specs.declared.verdict.Rule.TheVariants.{Missing};
ghost use Rattle.rambo_witness.specs.Dues.{calls_at};
ghost use Rattle.rambo_witness.specs.Witnesses.{Decides};

use crate::dues::{dues_of_all, dues_of_keys};
use crate::missing::first_out;
use crate::out_of_order::first_out_of_order;
use crate::repeated::first_repeated;
use crate::stranger::first_stranger;
use crate::witness::Witness;
use crate::wrong_answer::first_wrong_answer;
use indexmap::IndexMap;
use rambo_atomic::Rule;
use rambo_history::{CallId, History};
use rambo_names::{Bytes, Refusal};
use std::marker::Model;

/// Finds what shows that orders break the rules of a proper one, for one history.
#[derive(Drop)]
pub struct Witnesses<'a> {
    history: &'a History,
    // The answered calls of each key, as they were made, once a missing one was looked for.
    dues: Option<IndexMap<Bytes, Vec<CallId>>>,
}

impl<'a> Model for Witnesses<'a> {
    ghost use Rattle.std.specs.Prelude.{List};
    ghost use Rattle.std.specs.Option.{IfSome};
    ghost use Rattle.rambo_history.specs.declared.event.Event.{Event};
    ghost use Rattle.rambo_history.specs.Forms.{IsWellFormed};
    ghost use Rattle.rambo_witness.specs.Dues.{HasDues};

    ghost Value = { List Event };

    ghost view = { λ w. w.history.now.events };

    ghost invariant = { λ w. IfSome w.dues (λ dues. HasDues w.history.now.events dues.entries) × IsWellFormed w.history.now.events };
}

impl<'a> Witnesses<'a> {
    /// What finds the witnesses of this history's orders, in constant time. It takes no memory.
    pub fn new(history: &'a History) -> Witnesses<'a>
        ensures { result ≡ history.now.events }
    {
        // The history is well formed, by the contract of `events`.
        let _events = history.events();
        Witnesses {
            history,
            dues: None,
        }
    }

    /// The first witness that an order of a key's calls breaks a rule, or None where the order keeps the rule. The key is any
    /// bytes, and the order any list.
    ///
    /// The time is linear in the order's length, and for a missing call also in the number of the key's answered calls. The
    /// first that looks for a missing call goes through the history, and keeps the answered calls of each key.
    /// `OutOfMemory` where there is no room for those, for a set of the order's calls, or for the latest set of each key.
    pub fn of_key(
        &mut self,
        rule: Rule,
        key: &Bytes,
        order: &[CallId],
    ) -> Result<Option<Witness>, Refusal>
        ensures found { IfOk result (Decides rule self.old (Some key.now) order.now) }
        ensures refused { IfErr result (λ r. r ≡ Refusal.OutOfMemory) }
        ensures same { self.new ≡ self.old }
    {
        self.within(rule, Some(key), order)
    }

    /// The first witness that one order of the calls of all keys breaks a rule, or None where the order keeps the rule. The
    /// order is any list.
    ///
    /// The time is linear in the order's length, and for a missing call also in the history's. `OutOfMemory` where there is
    /// no room for a set of the order's calls, for the latest set of each key, or for the answered calls.
    pub fn of_all(&mut self, rule: Rule, order: &[CallId]) -> Result<Option<Witness>, Refusal>
        ensures found { IfOk result (Decides rule self.old None order.now) }
        ensures refused { IfErr result (λ r. r ≡ Refusal.OutOfMemory) }
        ensures same { self.new ≡ self.old }
    {
        self.within(rule, None, order)
    }

    // The first witness that an order of a key's calls, or of those of all keys, breaks a rule.
    fn within(
        &mut self,
        rule: Rule,
        key: Option<&Bytes>,
        order: &[CallId],
    ) -> Result<Option<Witness>, Refusal>
        ensures found { IfOk result (Decides rule self.old (option_copied key.entry) order.now) }
        ensures refused { IfErr result (λ r. r ≡ Refusal.OutOfMemory) }
        ensures same { self.new ≡ self.old }
    {
        match rule {
            Rule::Missing => self.missing(key, order),
            Rule::Repeated => first_repeated(self.history, order),
            Rule::Stranger => Ok(first_stranger(self.history, key, order)),
            Rule::WrongAnswer => first_wrong_answer(self.history, order),
            Rule::OutOfOrder => Ok(first_out_of_order(self.history, order)),
        }
    }

    // The first answered call of the key, or of all, that doesn't stand in the order.
    fn missing(&mut self, key: Option<&Bytes>, order: &[CallId]) -> Result<Option<Witness>, Refusal>
        ensures found { IfOk result (Decides Missing self.old (option_copied key.entry) order.now) }
        ensures refused { IfErr result (λ r. r ≡ Refusal.OutOfMemory) }
        ensures same { self.new ≡ self.old }
    {
        match key {
            Some(key) => self.missing_of(key, order),
            None => {
                let dues = dues_of_all(self.history)?;
                first_out(self.history, dues.as_slice(), order)
            }
        }
    }

    // The first answered call of the key that doesn't stand in the order.
    fn missing_of(&mut self, key: &Bytes, order: &[CallId]) -> Result<Option<Witness>, Refusal>
        ensures found { IfOk result (Decides Missing self.old (Some key.now) order.now) }
        ensures refused { IfErr result (λ r. r ≡ Refusal.OutOfMemory) }
        ensures same { self.new ≡ self.old }
    {
        let dues = match self.dues.take() {
            Some(dues) => dues,
            None => dues_of_keys(self.history)?,
        };
        let witness = first_out(self.history, dues_of(&dues, key), order);
        self.dues = Some(dues);
        witness
    }
}

// The answered calls of a key, as they were made.
fn dues_of<'a>(dues: &'a IndexMap<Bytes, Vec<CallId>>, key: &Bytes) -> &'a [CallId]
    ensures { result.now ≡ calls_at dues.now.entries key.now }
{
    match dues.get(key) {
        Some(calls) => calls.as_slice(),
        None => &[],
    }
}
