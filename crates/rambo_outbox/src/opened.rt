//! What is open at a node.
ghost use Rattle.std.specs.Prelude.{◌≡◌};

use rambo_calls::OpenCall;
use rambo_config_map::ConfigMap;
use rambo_names::{Members, Name, Quorums};
use rambo_paxos::Ballot;

/// How far an attempt to have a configuration chosen is: its ballot, and whether it proposes in it.
#[derive(Clone, Copy, Debug)]
pub struct BidStage {
    pub ballot: Ballot,
    pub proposes: bool,
}

/// What is open at a node, as an outbox reads it.
#[derive(Drop)]
pub struct Opened<'a, Q: Quorums> {
    /// The name of the node.
    pub me: Name,
    /// Whom it may write to. Its own name may be among them, and doesn't count.
    pub reach: Members,
    /// Whether it is joining, and asks its contacts for that.
    pub is_joining: bool,
    /// Its open calls.
    pub calls: &'a [OpenCall<Q>],
    /// Whether somebody waits for an open call to end, so that there is room for another.
    pub wants_room: bool,
    /// The phase number of its collection, if one is open.
    pub collection: Option<u64>,
    /// How far its attempt is, if one is open.
    pub bid: Option<BidStage>,
    /// Its configuration map.
    pub map: &'a ConfigMap<Q>,
}

impl BidStage {
    ghost use Rattle.rambo_outbox.specs.Bids.{same_stage};

    /// Whether both have the same ballot, at the same stage.
    pub fn is_same(&self, other: &BidStage) -> bool
        ensures { result ≡ same_stage self.now other.now }
    {
        self.ballot == other.ballot && self.proposes == other.proposes
    }
}
