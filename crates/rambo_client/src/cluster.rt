//! Nodes that a client asks.
ghost use Rattle.std.specs.Prelude.{◌≡◌, ◌∷◌, [], IfOk};
ghost use Rattle.rambo_history.specs.declared.event.Event.TheVariants as event;
ghost use Rattle.rambo_node.specs.declared.step.StepOf.TheVariants as step;
ghost use Rattle.rambo_client.specs.Calls.{answered, id_at};
ghost use Rattle.rambo_client.specs.Courses.{Course, Ends, exchanged, history_of, stepped};

use rambo_history::{Answer, CallId, Op};
use rambo_names::{Name, Refusal};

/// Nodes that a client asks, and whose letters go where it says.
///
/// `By` is a type of the crate that has the impl. With it a crate may implement this for the nodes of another crate.
pub trait Cluster<By> {
    // The nodes are those of the founders of a course, and took its steps. They need keep neither letters nor history.
    ghost took: { Self → Course → Type 0 };

    /// Asks a node for an operation. Returns the call.
    ///
    /// Where it is refused there is no call.
    fn ask(&mut self, name: Name, op: Op) -> Result<CallId, Refusal>
        ensures named { IfOk result (λ id. id ≡ id_at name id.number) }
        ensures steps { (c : Course) → took self.old c → Ends result (took self.new) (stepped c (step.Call name op)) (history_of c) (λ id. event.Call id op ∷ []) };

    /// A letter goes to a node, and one comes back. Where one is refused, it goes no further.
    fn exchange(&mut self, name: Name, peer: Name) -> Result<(), Refusal>
        ensures { (c : Course) → took self.old c → Ends result (took self.new) (exchanged name c peer) (history_of c) (λ done. []) };

    /// Advances a call. Returns its answer, if it got one.
    ///
    /// Where that is refused nothing is answered.
    fn go_on(&mut self, id: &CallId) -> Result<Option<Answer>, Refusal>
        ensures { (c : Course) → took self.old c → Ends result (took self.new) (stepped c (step.Advance id.now)) (history_of c) (answered id.now) };
}
