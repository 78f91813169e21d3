//! Steps whose first half is made.
ghost use Rattle.std.specs.Prelude.{◌≡◌, Option, true};
ghost use Rattle.rambo_book.specs.Kept.{KeeperView};
ghost use Rattle.rambo_book.specs.Readying.{IsReadyFor};

use rambo_gossip::Letter;
use rambo_names::Quorums;
use rambo_node::Half;
use rambo_run::Step;

/// A step of a keeper's node that isn't refused, for which the node has room, and what it will do. It brings along the letter that
/// it delivers.
#[derive(Drop)]
pub struct Ready<Q: Quorums> {
    pub step: Step<Q>,
    pub(crate) half: Half<Q>,
    // The letter that it delivers, if it delivers one.
    pub(crate) letter: Option<Letter<Q>>,
    // Whether the letter that it sends, if it sends one, asks for one in return.
    pub(crate) asks: bool,
}

impl<Q: Quorums> Ready<Q> {
    /// The same, with a letter that asks for one in return, if it sends one.
    pub fn asking(self) -> Ready<Q>
        ensures same { result ≡ record self { asks = true } }
        ensures ready { (agreed : Option Q) (k : KeeperView Q) → IsReadyFor Q.system agreed k self → IsReadyFor Q.system agreed k result }
    {
        let Ready {
            step,
            half,
            letter,
            asks: _,
        } = self;
        Ready {
            step,
            half,
            letter,
            asks: true,
        }
    }

    /// Drops it: the step isn't done, and the node is unchanged.
    // (whoever gives one up by this needn't follow all that is in it)
    pub fn let_go(self) {}
}
