//! Writing lines that are no calls and no answers.
//!
//! After a refusal the text of an `append_` function is what it was, maybe with some bytes after it.
ghost use Rattle.std.specs.Prelude.{◌≡◌, ◌++◌, ◌∷◌, map, decimal, OnOk, OnErr, IfErr};
ghost use Rattle.rambo_text.specs.Words.{more_words};
ghost use Rattle.rambo_text.specs.Signs.{call_text, Grows};
ghost use Rattle.rambo_names.specs.Signs.{conf_text};
ghost use Rattle.rambo_names.specs.Refusals.{number_of};
ghost use Rattle.rambo_check.specs.Lines.{Collected, Settled, Refused, Ordered, OrderedAll, item_line};
ghost use Rattle.rambo_outcome.specs.Outcomes.{map_item};

use rambo_history::CallId;
use rambo_names::{Name, Refusal, Weighted, write_conf};
use rambo_node::Decided;
use rambo_run::NodeMap;
use rambo_sequence::KeySequence;
use rambo_text::{write_call, write_hex, write_name, write_num, write_standing};

// Appends a word with the space after it, a name and a number.
fn append_front(word: &[u8], name: Name, number: u64, out: &mut Vec<u8>) -> Result<(), Refusal>
    ensures ok { OnOk result (out.new.items ≡ out.old.items ++ word.now ++ decimal name ++ 32 ∷ decimal number) }
    ensures err { OnErr result (Grows out.old.items out.new.items) }
    ensures refused { IfErr result (λ r. r ≡ Refusal.OutOfMemory) }
{
    out.extend_from_slice(word)?;
    write_name(name, out)?;
    out.push(b' ')?;
    write_num(number, out)?;
    Ok(())
}

/// Appends the line of a node's collection of a place, which ended.
pub(crate) fn append_collected(name: Name, place: u64, out: &mut Vec<u8>) -> Result<(), Refusal>
    ensures ok { OnOk result (out.new.items ≡ out.old.items ++ item_line (Collected name place)) }
    ensures err { OnErr result (Grows out.old.items out.new.items) }
    ensures refused { IfErr result (λ r. r ≡ Refusal.OutOfMemory) }
{
    append_front(b"collected ", name, place, out)?;
    out.push(b'\n')?;
    Ok(())
}

/// Appends the line of a node's attempt, which ended.
pub(crate) fn append_decided(
    name: Name,
    decided: &Decided<Weighted>,
    out: &mut Vec<u8>,
) -> Result<(), Refusal>
    ensures ok { OnOk result (out.new.items ≡ out.old.items ++ item_line (Settled name decided.now.place decided.now.config)) }
    ensures err { OnErr result (Grows out.old.items out.new.items) }
    ensures refused { IfErr result (λ r. r ≡ Refusal.OutOfMemory) }
{
    append_front(b"decided ", name, decided.place, out)?;
    out.push(b' ')?;
    write_standing(decided.config, out)?;
    out.push(b'\n')?;
    Ok(())
}

/// Appends the line of a refused step.
pub(crate) fn append_refused(step: u64, refusal: Refusal, out: &mut Vec<u8>) -> Result<(), Refusal>
    ensures ok { OnOk result (out.new.items ≡ out.old.items ++ item_line (Refused step (number_of refusal))) }
    ensures err { OnErr result (Grows out.old.items out.new.items) }
    ensures refused { IfErr result (λ r. r ≡ Refusal.OutOfMemory) }
{
    out.extend_from_slice(b"refused ")?;
    write_num(step, out)?;
    out.push(b' ')?;
    write_num(refusal.number(), out)?;
    out.push(b'\n')?;
    Ok(())
}

/// Appends the line of a key's sequence.
pub(crate) fn append_sequence(sequence: &KeySequence, out: &mut Vec<u8>) -> Result<(), Refusal>
    ensures ok { OnOk result (out.new.items ≡ out.old.items ++ item_line (Ordered sequence.now)) }
    ensures err { OnErr result (Grows out.old.items out.new.items) }
    ensures refused { IfErr result (λ r. r ≡ Refusal.OutOfMemory) }
{
    out.extend_from_slice(b"sequence ")?;
    write_hex(sequence.key.as_slice(), out)?;
    append_calls(sequence.calls.as_slice(), out)?;
    out.push(b'\n')?;
    Ok(())
}

/// Appends the line of the order of all keys' calls.
pub(crate) fn append_order(calls: &[CallId], out: &mut Vec<u8>) -> Result<(), Refusal>
    ensures ok { OnOk result (out.new.items ≡ out.old.items ++ item_line (OrderedAll calls.now)) }
    ensures err { OnErr result (Grows out.old.items out.new.items) }
    ensures refused { IfErr result (λ r. r ≡ Refusal.OutOfMemory) }
{
    out.extend_from_slice(b"order")?;
    append_calls(calls, out)?;
    out.push(b'\n')?;
    Ok(())
}

fn append_calls(calls: &[CallId], out: &mut Vec<u8>) -> Result<(), Refusal>
    ensures ok { OnOk result (out.new.items ≡ out.old.items ++ more_words (map call_text calls.now)) }
    ensures err { OnErr result (Grows out.old.items out.new.items) }
    ensures refused { IfErr result (λ r. r ≡ Refusal.OutOfMemory) }
{
    for id in calls {
        out.push(b' ')?;
        write_call(id, out)?;
    }
    Ok(())
}

/// Appends the line of a node's map.
pub(crate) fn append_map(node: &NodeMap<Weighted>, out: &mut Vec<u8>) -> Result<(), Refusal>
    ensures ok { OnOk result (out.new.items ≡ out.old.items ++ item_line (map_item node.now)) }
    ensures err { OnErr result (Grows out.old.items out.new.items) }
    ensures refused { IfErr result (λ r. r ≡ Refusal.OutOfMemory) }
{
    append_front(b"map ", node.name, node.floor, out)?;
    append_configs(node.active.as_slice(), out)?;
    out.push(b'\n')?;
    Ok(())
}

fn append_configs(configs: &[Weighted], out: &mut Vec<u8>) -> Result<(), Refusal>
    ensures ok { OnOk result (out.new.items ≡ out.old.items ++ more_words (map conf_text configs.now)) }
    ensures err { OnErr result (Grows out.old.items out.new.items) }
    ensures refused { IfErr result (λ r. r ≡ Refusal.OutOfMemory) }
{
    for config in configs {
        out.push(b' ')?;
        write_conf(config, out)?;
    }
    Ok(())
}
