//! Which step a client asks for.
ghost use Rattle.std.specs.Prelude.{◌≡◌};
ghost use Rattle.rambo_cluster.specs.Asking.{asked_of};

use rambo_commands::ServerRequest;
use rambo_names::{Name, Weighted};
use rambo_run::Step;

/// The step that a request asks for, of a client that uses the node of this name, and the node whose step it is. None
/// where it asks for no step, or for a call, whose client gets the answer.
pub(crate) fn asked_of(used: Name, request: &ServerRequest) -> Option<(Name, Step<Weighted>)>
    ensures { result ≡ asked_of used request.now }
{
    match request {
        ServerRequest::Join(name, known) => Some((*name, Step::Join(*name, *known))),
        ServerRequest::Recon(wish) => Some((used, Step::Recon(used, *wish))),
        ServerRequest::Collect => Some((used, Step::Collect(used))),
        ServerRequest::Stop(name) => Some((*name, Step::Stop(*name))),
        ServerRequest::Common(_)
        | ServerRequest::Use(_)
        | ServerRequest::Config
        | ServerRequest::Info
        | ServerRequest::Shutdown => None,
    }
}
