//! What a keeper takes from the book.
ghost use Rattle.std.specs.Prelude.{◌≡◌, ◌<◌, ℕ, [], ◌∷◌, drop, option_map, slice_get, OnOk, OnErr, IfErr};
ghost use Rattle.rambo_book.specs.Kept.{state};
ghost use Rattle.rambo_mail.specs.Waiting.{number_of, waiting_for, with_waiting};
ghost use Rattle.rambo_book.specs.Windows.{gone_of};
ghost use Rattle.rambo_book.specs.Mailing.{sent_to, IsBehind, AreTaken, all_for};

use crate::book::Book;
use crate::keeper::Keeper;
use crate::terms::Terms;
use rambo_mail::{Entry, Mail};
use rambo_names::{Name, Quorums, Refusal};
use rambo_tag::Replica;

/// The keeper has then seen all steps, which left its node unchanged.
pub fn see_all<J: Terms<Q>, Q: Quorums, S: Replica>(
    book: &mut Book<J, Q>,
    keeper: &mut Keeper<J, Q, S>,
)
    ensures book { book.new ≡ book.old }
    ensures keeper { keeper.new ≡ record keeper.old { seen = book.old.steps } }
{
    book.steps.agree(&mut keeper.holder);
    book.steps.catch_up(&mut keeper.holder);
}

/// A letter that waits goes into the tray of the keeper whose node it is for, unless it is gone. It is shared with the book.
///
/// `OutOfMemory` where there is no room for it; the keeper is then unchanged.
pub fn take_letter<J: Terms<Q>, Q: Quorums, S: Replica>(
    book: &Book<J, Q>,
    keeper: &mut Keeper<J, Q, S>,
    entry: Entry,
) -> Result<(), Refusal>
    requires { keeper.old.seen ≡ book.now.steps }
    ensures keeper { keeper.new ≡ record keeper.old { tray = keeper.new.tray } }
    ensures tray { OnOk result (IsBehind keeper.old.tray (sent_to (state Q.system book.now) (gone_of J.endless J.capacity (state Q.system book.now)) keeper.old.name (entry.number ∷ [])) keeper.new.tray) }
    ensures err { OnErr result (keeper.new ≡ keeper.old) }
    ensures refused { IfErr result (λ r. r ≡ Refusal.OutOfMemory) }
{
    let Some(letter) = book.letters.of(entry.number) else {
        return Ok(());
    };
    if letter.addressee() != keeper.name {
        return Ok(());
    }
    let letter = letter.clone()?;
    keeper.tray.reserve(1)?;
    keeper.tray.push_reserved(Mail {
        number: entry.number,
        asks: entry.asks,
        letter,
    });
    Ok(())
}

impl<J: Terms<Q>, Q: Quorums> Book<J, Q> {
    // The letter that waits for a name for the longest time.
    fn first_mail(&self, name: Name) -> Option<Entry>
        ensures { option_map number_of result ≡ slice_get (waiting_for self.now.waiting name) 0 }
    {
        self.mails.first(name)
    }

    // That letter waits no more.
    fn drop_mail(&mut self, name: Name)
        ensures { self.new ≡ record self.old { waiting = with_waiting self.old.waiting name (drop 1 (waiting_for self.old.waiting name)) } }
    {
        self.mails.drop_first(name);
    }
}

/// The letters that wait for the keeper's node go to its tray, but for those that are gone. A node that has stopped hears
/// nothing more, and leaves them.
///
/// `OutOfMemory` where there is no room for one; those before it were taken, and the others wait.
pub fn take_mail<J: Terms<Q>, Q: Quorums, S: Replica>(
    book: &mut Book<J, Q>,
    keeper: &mut Keeper<J, Q, S>,
) -> Result<(), Refusal>
    requires { keeper.old.seen ≡ book.old.steps }
    ensures book { book.new ≡ record book.old { waiting = book.new.waiting } }
    ensures keeper { keeper.new ≡ record keeper.old { tray = keeper.new.tray } }
    ensures all { OnOk result (AreTaken (state Q.system book.old) (gone_of J.endless J.capacity (state Q.system book.old)) keeper.old.name (all_for keeper.old book.old.waiting) book.old.waiting book.new.waiting keeper.old.tray keeper.new.tray) }
    ensures some { OnErr result ((count : ℕ) × (count < all_for keeper.old book.old.waiting) × AreTaken (state Q.system book.old) (gone_of J.endless J.capacity (state Q.system book.old)) keeper.old.name count book.old.waiting book.new.waiting keeper.old.tray keeper.new.tray) }
    ensures refused { IfErr result (λ r. r ≡ Refusal.OutOfMemory) }
{
    if keeper.has_stopped() {
        return Ok(());
    }
    let name = keeper.name();
    while let Some(entry) = book.first_mail(name) {
        take_letter(book, keeper, entry)?;
        book.drop_mail(name);
    }
    Ok(())
}
