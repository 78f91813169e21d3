//! What a closed post leaves.
ghost use Rattle.std.specs.Prelude.{◌≡◌, option_map};

use rambo_history::CallId;
use rambo_names::Quorums;
use rambo_run::Step;
use std::marker::Model;

/// What a closed post leaves. Only a post that is closed gives one.
#[derive(Drop)]
pub struct Left<Q: Quorums> {
    pub(crate) steps: Vec<Step<Q>>,
    pub(crate) order: Option<Vec<CallId>>,
}

impl<Q: Quorums> Model for Left<Q> {
    ghost use Rattle.std.specs.Prelude.{option_map};
    ghost use Rattle.std.specs.Coded.{codes};
    ghost use Rattle.rambo_names.specs.Names.{names_code};
    ghost use Rattle.rambo_pass.specs.Leavings.{LeftView};

    ghost Value = { LeftView Q };

    ghost coded = { Prim.hlevel (codes, names_code, Q.code) };

    ghost view = { λ l. record { steps = l.steps.items; order = option_map (λ o. o.items) l.order } };
}

impl<Q: Quorums> Left<Q> {
    /// All steps that were done, in their order.
    pub fn steps(&self) -> &[Step<Q>]
        ensures { result.now ≡ self.now.steps }
    {
        self.steps.as_slice()
    }

    /// One order of the calls of all keys, which explains their answers together. None where there was no room for it.
    pub fn order(&self) -> Option<&[CallId]>
        ensures { option_map (λ o. o.now) result ≡ self.now.order }
    {
        match &self.order {
            Some(order) => Some(order.as_slice()),
            None => None,
        }
    }

    /// Both of them.
    pub fn into_parts(self) -> (Vec<Step<Q>>, Option<Vec<CallId>>)
        ensures steps { result.0.items ≡ self.steps }
        ensures order { option_map (λ o. o.items) result.1 ≡ self.order }
    {
        let Left { steps, order } = self;
        (steps, order)
    }
}
