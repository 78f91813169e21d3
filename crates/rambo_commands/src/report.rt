//! What a server reports of itself.
ghost use Rattle.std.specs.Prelude.{◌≡◌, ◌++◌, List, ℕ, codes, IfOk, IfErr, OnOk};
ghost use Rattle.rambo_commands.specs.Reports as spec;

use crate::replies::append_configs;
use rambo_names::{Bytes, Refusal, Weighted, write_conf};
use rambo_resp::Reply;
use rambo_text::write_num;
use std::alloc::Global;

/// The counts of a server.
#[derive(Clone, Copy, PartialEq, Eq, Debug)]
pub struct Report {
    /// How many steps were taken.
    pub steps: u64,
    /// How many of them are in memory, since they weren't drawn.
    pub steps_at_hand: u64,
    /// How many steps the server takes in all.
    pub steps_at_most: u64,
    /// How many letters are kept.
    pub letters_kept: u64,
    /// How many calls wait for their answer.
    pub calls_open: u64,
    /// How many bytes of the trace were written.
    pub trace_bytes: u64,
    /// How many connections are served.
    pub connections: u64,
    /// How many operations were answered since the server began.
    pub operations: u64,
}

/// The bulk with a report: a line for each count, as `steps 12`, then one with the founders, and one with the map of a node as
/// `map_reply` has it. Each line ends in a line feed.
///
/// `OutOfMemory` where there is no room for it.
pub fn report_reply(
    alloc: Global,
    report: &Report,
    founders: Weighted,
    floor: u64,
    configs: &[Weighted],
) -> Result<Reply, Refusal>
    ensures ok { IfOk result (λ r. r ≡ spec.report_reply report.now founders floor configs.now) }
    ensures refused { IfErr result (λ r. r ≡ Refusal.OutOfMemory) }
{
    let mut text = Vec::new(alloc);
    append_counts(report, &mut text)?;
    append_founders(founders, &mut text)?;
    append_map(floor, configs, &mut text)?;
    Ok(Reply::Bulk(Bytes::from_vec(text)?))
}

// Appends a line for each count.
fn append_counts(report: &Report, text: &mut Vec<u8>) -> Result<(), Refusal>
    ensures ok { OnOk result (text.new.items ≡ spec.with_counts text.old.items report.now) }
    ensures refused { IfErr result (λ r. r ≡ Refusal.OutOfMemory) }
{
    append_line(b"steps", report.steps, text)?;
    append_line(b"steps_at_hand", report.steps_at_hand, text)?;
    append_line(b"steps_at_most", report.steps_at_most, text)?;
    append_line(b"letters_kept", report.letters_kept, text)?;
    append_line(b"calls_open", report.calls_open, text)?;
    append_line(b"trace_bytes", report.trace_bytes, text)?;
    append_line(b"connections", report.connections, text)?;
    append_line(b"operations", report.operations, text)
}

// Appends a line with a name and a count.
fn append_line(name: &[u8], count: u64, text: &mut Vec<u8>) -> Result<(), Refusal>
    ensures ok { OnOk result (text.new.items ≡ spec.with_line text.old.items name.now count) }
    ensures refused { IfErr result (λ r. r ≡ Refusal.OutOfMemory) }
{
    text.extend_from_slice(name)?;
    text.push(b' ')?;
    write_num(count, text)?;
    text.push(b'\n')?;
    Ok(())
}

// Appends the line with the founders.
fn append_founders(founders: Weighted, text: &mut Vec<u8>) -> Result<(), Refusal>
    ensures ok { OnOk result (text.new.items ≡ spec.with_founders text.old.items founders) }
    ensures refused { IfErr result (λ r. r ≡ Refusal.OutOfMemory) }
{
    text.extend_from_slice(b"founders ")?;
    write_conf(&founders, text)?;
    text.push(b'\n')?;
    Ok(())
}

// Appends the line with the map.
fn append_map(floor: u64, configs: &[Weighted], text: &mut Vec<u8>) -> Result<(), Refusal>
    ensures ok { OnOk result (text.new.items ≡ spec.with_map text.old.items floor configs.now) }
    ensures refused { IfErr result (λ r. r ≡ Refusal.OutOfMemory) }
{
    text.extend_from_slice(b"map ")?;
    write_num(floor, text)?;
    append_configs(configs, text)?;
    text.push(b'\n')?;
    Ok(())
}
