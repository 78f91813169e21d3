//! Letters leave a tray.
ghost use Rattle.std.specs.Prelude.{◌≡◌, ◌<◌, length, MatchOption};
ghost use Rattle.std.specs.List.{remove};
ghost use Rattle.rambo_book.specs.Mailing.{without};

use crate::keeper::Keeper;
use crate::terms::Terms;
use rambo_mail::Mail;
use rambo_names::Quorums;
use rambo_tag::Replica;

impl<J: Terms<Q>, Q: Quorums, S: Replica> Keeper<J, Q, S> {
    /// The first letter of this number leaves the tray.
    pub fn forget(&mut self, number: u64)
        ensures { self.new ≡ record self.old { tray = without self.old.tray number } }
    {
        let Some(at) = place_in(self.tray.as_slice(), number) else {
            return;
        };
        let _mail = self.tray.remove(at);
    }
}

// The place of the first letter of this number in a tray, if there is one.
fn place_in<Q: Quorums>(tray: &[Mail<Q>], number: u64) -> Option<usize>
    ensures { MatchOption result (without tray.now number ≡ tray.now) (λ at. (at < length tray.now) × (remove tray.now at ≡ without tray.now number)) }
{
    for at in 0..tray.len() {
        if tray[at].number == number {
            return Some(at);
        }
    }
    None
}
