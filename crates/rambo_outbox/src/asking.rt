//! Whom a node asks first.
ghost use Rattle.std.specs.Prelude.{◌≡◌, cond, drop, take};
ghost use Rattle.std.specs.FinSet as set;
ghost use Rattle.rambo_names.specs.Names.{names};
ghost use Rattle.rambo_outbox.specs.Bids.{agree};
ghost use Rattle.rambo_outbox.specs.Asking.{with_next, enough, turned, those, with_quorum, first_asked};

use rambo_config_map::ConfigMap;
use rambo_names::{Members, Name, Quorums};

/// By what a node chooses whom to ask: its own name, whom it may write to, who was silent lately, and whose turn it is.
#[derive(Clone, Copy)]
pub struct Choice {
    pub me: Name,
    pub reach: Members,
    pub silent: Members,
    pub turn: u64,
}

// These names and one more, unless they hold a quorum already.
fn with_next<Q: Quorums>(config: &Q, who: Members, name: Name) -> Members
    ensures { result ≡ with_next Q.system config.now who name }
{
    if config.is_quorum(who) {
        who
    } else {
        who.with(name)
    }
}

// The same where `is_silent` says rightly whether the name is silent; else these names alone.
fn with_one<Q: Quorums>(
    config: &Q,
    who: Members,
    silent: Members,
    is_silent: bool,
    name: Name,
) -> Members
    ensures { result ≡ cond (agree (set.contains silent name) is_silent) (with_next Q.system config.now who name) who }
{
    if silent.has(name) == is_silent {
        with_next(config, who, name)
    } else {
        who
    }
}

// These names and, one after the other until they hold a quorum, those of the others from a place on that are silent,
// or that aren't.
fn enough_behind<Q: Quorums>(
    config: &Q,
    who: Members,
    others: Members,
    place: usize,
    silent: Members,
    is_silent: bool,
) -> Members
    ensures { result ≡ enough Q.system config.now who (those silent is_silent (drop place (names others))) }
{
    let mut behind = others.iter();
    let mut left = place;
    while left > 0 {
        let _ = behind.next();
        left -= 1;
    }
    let mut who = who;
    while let Some(name) = behind.next() {
        who = with_one(config, who, silent, is_silent, name);
    }
    who
}

// The same of those before a place.
fn enough_before<Q: Quorums>(
    config: &Q,
    who: Members,
    others: Members,
    place: usize,
    silent: Members,
    is_silent: bool,
) -> Members
    ensures { result ≡ enough Q.system config.now who (those silent is_silent (take place (names others))) }
{
    let mut before = others.iter();
    let mut left = place;
    let mut who = who;
    while left > 0 {
        let Some(name) = before.next() else {
            return who;
        };
        who = with_one(config, who, silent, is_silent, name);
        left -= 1;
    }
    who
}

// The same of all: from a place on, and then those before it.
fn enough<Q: Quorums>(
    config: &Q,
    who: Members,
    others: Members,
    place: usize,
    silent: Members,
    is_silent: bool,
) -> Members
    ensures { result ≡ enough Q.system config.now who (those silent is_silent (turned place (names others))) }
{
    let who = enough_behind(config, who, others, place, silent, is_silent);
    enough_before(config, who, others, place, silent, is_silent)
}

impl Choice {
    // These names and enough others for a quorum of one more configuration, the silent ones last.
    fn with_quorum<Q: Quorums>(&self, config: &Q, who: Members) -> Members
        ensures { result ≡ with_quorum Q.system self.now who config.now }
    {
        let others = config.members().intersection(self.reach);
        let place = (self.turn % u64::from(others.count().max(1))) as usize;
        let awake = enough(config, who, others, place, self.silent, false);
        enough(config, awake, others, place, self.silent, true)
    }

    /// Enough names for a quorum of each active configuration of a map, together with the node itself.
    pub(crate) fn first_asked<Q: Quorums>(&self, map: &ConfigMap<Q>) -> Members
        ensures { result ≡ first_asked Q.system self.now map.now.configs }
    {
        let mut who = Members::empty().with(self.me);
        let mut place = 0;
        while let Some(config) = map.places().get(place) {
            who = self.with_quorum(&config, who);
            place += 1;
        }
        who.without(self.me)
    }
}
