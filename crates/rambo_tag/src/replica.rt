//! What a node needs of its copies.
ghost use Rattle.std.specs.Prelude.{◌≡◌, ◌<◌, ◌≤◌, ℕ, IsOk, IfOk, IfErr, OnOk, OnErr};
ghost use Rattle.std.specs.FinMap as map;
ghost use Rattle.std.specs.Option.{option_copied};
ghost use Rattle.rambo_tag.specs.Copies.{Copies, joined, HasRoom};
ghost use Rattle.rambo_tag.specs.Stamps.{Stamps, AreAtMost, IsSince, stamps_merged};

use crate::pack::Pack;
use crate::version::Version;
use rambo_names::{Bytes, Refusal};

/// The copies of one node, seen as a finite map from keys to copies, and of each key a stamp: the number under
/// which its copy last changed.
///
/// An absent key counts as nil under the tag (0, 0). Each call that returns `OutOfMemory` leaves the copies and the
/// stamps as they were.
pub trait Replica: Drop {
    ghost copies: { Self → Copies };

    ghost stamps: { Self → Stamps };

    /// How many more changes of copies it has room for.
    ghost spare: { Self → ℕ };

    /// A replica of the same kind that holds nothing.
    ///
    /// `OutOfMemory` where there is no room for it.
    fn fresh(&self) -> Result<Self, Refusal>
        ensures empty { IfOk result (λ r. copies r ≡ map.empty) }
        ensures unstamped { IfOk result (λ r. stamps r ≡ map.empty) }
        ensures refused { IfErr result (λ r. r ≡ Refusal.OutOfMemory) };

    /// The copy of a key, if there is one. A key is any bytes.
    fn copy(&self, key: &[u8]) -> Option<&Version>
        ensures { option_copied result ≡ map.get (copies self.now) key.now };

    /// Replaces the copy of a key, and stamps it with a number that no stamp exceeds.
    ///
    /// `OutOfMemory` where there is no room for it.
    fn put(&mut self, key: Bytes, version: Version, now: u64) -> Result<(), Refusal>
        requires late { AreAtMost now (stamps self.old) }
        ensures ok { OnOk result (copies self.new ≡ map.insert (copies self.old) key version) }
        ensures stamped { OnOk result (stamps self.new ≡ map.insert (stamps self.old) key now) }
        ensures err { OnErr result (copies self.new ≡ copies self.old) }
        ensures unstamped { OnErr result (stamps self.new ≡ stamps self.old) }
        ensures refused { IfErr result (λ r. r ≡ Refusal.OutOfMemory) };

    /// Takes the greater copy of each key, of all keys or of none. What is newer is stamped with a number that no stamp
    /// exceeds.
    ///
    /// `OutOfMemory` where there is no room for what is newer. Where nothing is newer it can't fail.
    fn merge(&mut self, pack: &Pack, now: u64) -> Result<(), Refusal>
        requires late { AreAtMost now (stamps self.old) }
        ensures ok { OnOk result (copies self.new ≡ joined (copies self.old) pack.now) }
        ensures stamped { OnOk result (stamps self.new ≡ stamps_merged now (copies self.old) (stamps self.old) pack.now) }
        ensures idle { joined (copies self.old) pack.now ≡ copies self.old → IsOk result }
        ensures err { OnErr result (copies self.new ≡ copies self.old) }
        ensures unstamped { OnErr result (stamps self.new ≡ stamps self.old) }
        ensures refused { IfErr result (λ r. r ≡ Refusal.OutOfMemory) };

    /// Makes room for a pack, so that `merge_room` can take it. In either case the copies and the stamps are unchanged,
    /// and no room is lost.
    ///
    /// `OutOfMemory` where there is no room for it. With an empty pack it can't fail.
    fn room(&mut self, pack: &Pack) -> Result<(), Refusal>
        ensures same { copies self.new ≡ copies self.old }
        ensures stamped { stamps self.new ≡ stamps self.old }
        ensures kept { spare self.old ≤ spare self.new }
        ensures ok { OnOk result (HasRoom (spare self.new) pack.now) }
        ensures idle { pack.now ≡ map.empty → IsOk result }
        ensures refused { IfErr result (λ r. r ≡ Refusal.OutOfMemory) };

    /// Takes the greater copy of each key of a pack for which there is room. What is newer is stamped with a number
    /// that no stamp exceeds. It allocates nothing and can't fail.
    fn merge_room(&mut self, pack: Pack, now: u64)
        requires room { HasRoom (spare self.old) pack }
        requires late { AreAtMost now (stamps self.old) }
        ensures copies { copies self.new ≡ joined (copies self.old) pack }
        ensures stamped { stamps self.new ≡ stamps_merged now (copies self.old) (stamps self.old) pack };

    /// Makes room for a change of one more key, so that `put_room` can make it. In either case the copies and the
    /// stamps are unchanged, and no room is lost.
    ///
    /// `OutOfMemory` where there is no room for it.
    fn room_for_key(&mut self) -> Result<(), Refusal>
        ensures same { copies self.new ≡ copies self.old }
        ensures stamped { stamps self.new ≡ stamps self.old }
        ensures kept { spare self.old ≤ spare self.new }
        ensures ok { OnOk result (0 < spare self.new) }
        ensures refused { IfErr result (λ r. r ≡ Refusal.OutOfMemory) };

    /// Replaces the copy of a key, where there is room for one more change, and stamps it with a number that no stamp
    /// exceeds. It allocates nothing and can't fail.
    fn put_room(&mut self, key: Bytes, version: Version, now: u64)
        requires room { 0 < spare self.old }
        requires late { AreAtMost now (stamps self.old) }
        ensures copies { copies self.new ≡ map.insert (copies self.old) key version }
        ensures stamped { stamps self.new ≡ map.insert (stamps self.old) key now };

    /// The copies with a stamp of at least a base, to be sent. Keys and values are shared, not copied.
    ///
    /// `OutOfMemory` where there is no room for the list of them.
    fn pack_since(&self, base: u64) -> Result<Pack, Refusal>
        ensures since { IfOk result (λ p. IsSince (copies self.now) (stamps self.now) base p) }
        ensures refused { IfErr result (λ r. r ≡ Refusal.OutOfMemory) };

    /// All copies, to be sent. Keys and values are shared, not copied.
    ///
    /// `OutOfMemory` where there is no room for the list of them.
    fn pack(&self) -> Result<Pack, Refusal>
        ensures all { IfOk result (λ p. p ≡ copies self.now) }
        ensures refused { IfErr result (λ r. r ≡ Refusal.OutOfMemory) };
}
