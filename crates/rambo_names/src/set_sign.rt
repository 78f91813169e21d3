//! The sign of a set of names: that of the configuration whose members they are, each with weight 1.
ghost use Rattle.std.specs.Prelude.{◌≡◌, ◌≢◌, ◌++◌, IfSome, IfNone, OnOk, OnErr, IfErr};
ghost use Rattle.rambo_names.specs.Names.{NameSet, AreNames};
ghost use Rattle.rambo_names.specs.Signs.{set_text};

use crate::conf_sign::{read_conf, write_conf};
use crate::members::Members;
use crate::quorums::Quorums;
use crate::refusal::Refusal;
use crate::weighted::Weighted;
use std::alloc::Allocator;

/// The set that the bytes spell: `-` for the empty one, else names, 1 to 64 in plain decimal, in strictly ascending
/// order, joined by commas.
///
/// None where they spell no set.
pub fn read_set(bytes: &[u8]) -> Option<Members>
    ensures found { IfSome result (λ s. bytes.now ≡ set_text s) }
    ensures names { IfSome result (λ s. AreNames s) }
    ensures none { IfNone result ((s : NameSet) → bytes.now ≢ set_text s) }
{
    let conf = read_conf(bytes)?;
    let members = conf.members();
    if conf == Weighted::of(members) {
        Some(members)
    } else {
        None
    }
}

/// Appends the one spelling of a set: `-` where it is empty, else its names in plain decimal, in ascending order,
/// joined by commas.
///
/// `OutOfMemory` where the text can't grow; it is then unchanged.
pub fn write_set<A: Allocator>(members: &Members, out: &mut Vec<u8, A>) -> Result<(), Refusal>
    ensures ok { OnOk result (out.new.items ≡ out.old.items ++ set_text members.now) }
    ensures err { OnErr result (out.new.items ≡ out.old.items) }
    ensures refused { IfErr result (λ r. r ≡ Refusal.OutOfMemory) }
{
    write_conf(&Weighted::of(*members), out)
}
