//! Whole inputs and whole outputs.
ghost use Rattle.std.specs.Prelude.{◌≡◌, ◌⊎◌, ◌≤◌, ◌<◌, ◌++◌, ◌^◌, ℕ, List, [], length, IfOk, IfErr, IfSome, OnOk, OnErr};
ghost use Rattle.std.specs.Io.KnownBytes.{Appends, Consumes, IsAtEnd};
ghost use Rattle.rambo_atomic.specs.Streams.{counted, Begins};
ghost use Rattle.rambo_atomic.specs.declared.whole.StreamFault.TheVariants as fault;

use crate::stream::{Sink, Source};
use std::alloc::{AllocError, Global};

/// Why an input wasn't read to its end, or an output wasn't written.
#[derive(Clone, Copy, PartialEq, Eq, Debug)]
pub enum StreamFault {
    /// The source failed.
    Read,
    /// The sink failed.
    Write,
    /// There is no room for the bytes.
    Memory,
}

impl StreamFault {
    ghost use Rattle.rambo_atomic.specs.StreamFaults.{words_of};

    /// The words that report the fault to a user.
    pub fn words(self) -> &'static str
        ensures { result.now ≡ words_of self }
    {
        match self {
            StreamFault::Read => "fault read",
            StreamFault::Write => "fault write",
            StreamFault::Memory => "fault memory",
        }
    }
}

impl From<AllocError> for StreamFault {
    ghost use Rattle.rambo_atomic.specs.declared.whole.StreamFault.TheVariants.{Memory};

    ghost from_gives = { λ _ r. r ≡ Memory };

    fn from(_e: AllocError) -> StreamFault {
        StreamFault::Memory
    }
}

/// How many bytes are asked for at once.
const PIECE: usize = 64 * 1024;

/// All that a source has left.
///
/// `Read` where the source fails, and `Memory` where there is no room for the bytes.
pub fn read_all<R: Source>(alloc: Global, reader: &mut R) -> Result<Vec<u8>, StreamFault>
    ensures bytes { IfOk result (λ all. IfSome (R.left reader.old) (λ bytes. all.items ≡ bytes)) }
    ensures end { OnOk result (IsAtEnd (R.left reader.new)) }
    ensures fine { OnOk result (R.failures reader.new ≡ R.failures reader.old) }
    ensures fault { IfErr result (λ f. ((f ≡ fault.Read) × (R.failures reader.new ≡ counted (R.failures reader.old)))
        ⊎ ((f ≡ fault.Memory) × (R.failures reader.new ≡ R.failures reader.old))) }
{
    let mut piece = Vec::new(alloc);
    let mut all = Vec::new(alloc);
    loop {
        if append_piece(&mut piece, &mut all, reader)? == 0 {
            return Ok(all);
        }
    }
}

// Reads once, and appends what that gives: none only at the end. A refusal leaves the bytes as they were, and
// loses none.
pub(crate) fn append_piece<R: Source>(
    piece: &mut Vec<u8>,
    bytes: &mut Vec<u8>,
    reader: &mut R,
) -> Result<usize, StreamFault>
    ensures bytes { IfOk result (λ n. (given : List ℕ) × Consumes (R.left reader.old) (R.left reader.new) given × (bytes.new.items ≡ bytes.old.items ++ given) × (n ≡ length given)) }
    ensures piece { IfOk result (λ n. n ≤ 2 ^ 16) }
    ensures end { IfOk result (λ n. n ≡ 0 → IsAtEnd (R.left reader.new)) }
    ensures kept { OnErr result ((bytes.new.items ≡ bytes.old.items) × Consumes (R.left reader.old) (R.left reader.new) []) }
    ensures reads { OnOk result (R.reads_left reader.new < R.reads_left reader.old) }
    ensures fine { OnOk result (R.failures reader.new ≡ R.failures reader.old) }
    ensures fault { IfErr result (λ f. ((f ≡ fault.Read) × (R.failures reader.new ≡ counted (R.failures reader.old)))
        ⊎ ((f ≡ fault.Memory) × (R.failures reader.new ≡ R.failures reader.old))) }
{
    piece.resize(PIECE, 0u8)?;
    bytes.reserve(PIECE)?;
    match reader.read(piece.as_mut_slice()) {
        Ok(count) => {
            bytes.extend_from_slice(&piece[..count])?;
            Ok(count)
        }
        Err(_) => Err(StreamFault::Read),
    }
}

/// Writes all of some bytes.
///
/// `Write` where the sink fails; then a prefix of the bytes was written.
pub fn write_all<W: Sink>(writer: &mut W, bytes: &[u8]) -> Result<(), StreamFault>
    ensures ok { OnOk result (Appends (W.taken writer.old) (W.taken writer.new) bytes.now) }
    ensures err { OnErr result (Begins (W.taken writer.old) (W.taken writer.new) bytes.now) }
    ensures fine { OnOk result (W.failures writer.new ≡ W.failures writer.old) }
    ensures fault { IfErr result (λ f. (f ≡ fault.Write) × (W.failures writer.new ≡ counted (W.failures writer.old))) }
{
    let mut written = 0;
    while written < bytes.len() {
        match writer.write(&bytes[written..]) {
            Ok(count) => written += count,
            Err(_) => return Err(StreamFault::Write),
        }
    }
    Ok(())
}
