//! Serving a client.
ghost use Rattle.std.specs.Prelude.{◌≡◌, ◌≢◌, ◌<◌, ◌++◌, ◌∷◌, [], ℕ, List, length, IfOk, IfErr, OnOk, OnErr};
ghost use Rattle.rambo_resp.specs.BriefCommands.{items_of};
ghost use Rattle.rambo_resp.specs.Decoders.{HasTaken, HasTakenFront};
ghost use Rattle.rambo_resp.specs.Replies.{reply_spelling};
ghost use Rattle.rambo_resp.specs.Streams.{open_at};
ghost use Rattle.rambo_commands.specs.declared.request.Request.{Request as AnyRequest};
ghost use Rattle.rambo_commands.specs.Requests.{request_of};
ghost use Rattle.rambo_commands.specs.Replies as replying;
ghost use Rattle.rambo_client.specs.Courses.{HasDone, HasBegun, no_steps};
ghost use Rattle.rambo_client.specs.Faults.{reads_failed, writes_failed};
ghost use Rattle.rambo_client.specs.Maps.{no_values};
ghost use Rattle.rambo_client.specs.Replies.{reply_to, after_all, replies, requests};
ghost use Rattle.rambo_client.specs.Talks.{Answers, AppendsAnswers, BreaksOff, CarriesFront, IsTalk, ServesAt, StopsAt, fault_in, is_faulty};

use crate::client::Client;
use crate::cluster::Cluster;
use crate::fault::LocalFault;
use bytes::BytesMut;
use rambo_atomic::{Sink, Source, write_all};
use rambo_commands::{Request, append_reply, fault_reply, telling};
use rambo_names::Refusal;
use rambo_resp::{BriefCommand, Command, Decoder, Fault, Reply};
use std::alloc::Global;

/// How many bytes are asked for at once.
const PIECE: usize = 64 * 1024;

/// Serves a client of nodes that took no step yet, until its input ends or has a fault. The commands that a source
/// gives, in RESP2, are answered into a sink.
///
/// What is written is what an ordinary map replies, and after a fault of the input the reply to it, after which no more
/// is read. A command that the end of the input cuts short is not answered. Those that are whole are answered before
/// more is read. For each `GET` and `SET` that isn't refused the nodes take its call at the client's node. Then they
/// take, twice, a letter to each other founder and one back, in ascending order, and an advance of the call. So the
/// history is that of the calls, each with its answer.
///
/// `Read` and `Write` where a call of that stream fails; `Memory` where there is no room for what has to be stored.
/// Then a prefix of the replies was written, and steps and history are prefixes of these.
pub fn serve<By, C: Cluster<By>, R: Source, W: Sink>(
    client: &Client,
    alloc: Global,
    cluster: &mut C,
    reader: &mut R,
    writer: &mut W,
) -> Result<(), LocalFault>
    requires { C.took cluster.old (no_steps client.now.founders) }
    ensures ok { OnOk result (ServesAt client.now.name client.now.founders (R.left reader.old) (R.left reader.new) (W.taken writer.old) (W.taken writer.new) (C.took cluster.new)) }
    ensures err { OnErr result (StopsAt client.now.name client.now.founders (R.left reader.old) (R.left reader.new) (W.taken writer.old) (W.taken writer.new) (C.took cluster.new)) }
    ensures fine_reader { OnOk result (R.failures reader.new ≡ R.failures reader.old) }
    ensures fine_writer { OnOk result (W.failures writer.new ≡ W.failures writer.old) }
    ensures reads { IfErr result (λ f. R.failures reader.new ≡ reads_failed f (R.failures reader.old)) }
    ensures writes { IfErr result (λ f. W.failures writer.new ≡ writes_failed f (W.failures writer.old)) }
{
    let mut piece = Vec::new(alloc);
    piece.resize(PIECE, 0u8)?;
    let mut decoder = Decoder::new(alloc);
    serve_pieces(
        client,
        alloc,
        cluster,
        reader,
        writer,
        &mut decoder,
        piece.as_mut_slice(),
    )
}

// Serves a client as `serve` does, with a decoder that has read nothing and room for a piece of the input.
fn serve_pieces<By, C: Cluster<By>, R: Source, W: Sink>(
    client: &Client,
    alloc: Global,
    cluster: &mut C,
    reader: &mut R,
    writer: &mut W,
    decoder: &mut Decoder,
    piece: &mut [u8],
) -> Result<(), LocalFault>
    requires fresh { C.took cluster.old (no_steps client.now.founders) }
    requires empty { decoder.old ≡ record { waiting = []; ending = open_at [] 0 } }
    requires taken { HasTaken decoder.old [] 0 }
    requires room { 0 < length piece.old }
    ensures ok { OnOk result (ServesAt client.now.name client.now.founders (R.left reader.old) (R.left reader.new) (W.taken writer.old) (W.taken writer.new) (C.took cluster.new)) }
    ensures err { OnErr result (StopsAt client.now.name client.now.founders (R.left reader.old) (R.left reader.new) (W.taken writer.old) (W.taken writer.new) (C.took cluster.new)) }
    ensures fine_reader { OnOk result (R.failures reader.new ≡ R.failures reader.old) }
    ensures fine_writer { OnOk result (W.failures writer.new ≡ W.failures writer.old) }
    ensures reads { IfErr result (λ f. R.failures reader.new ≡ reads_failed f (R.failures reader.old)) }
    ensures writes { IfErr result (λ f. W.failures writer.new ≡ writes_failed f (W.failures writer.old)) }
{
    let mut out = BytesMut::new(alloc);
    loop {
        let Ok(count) = reader.read(piece) else {
            return Err(LocalFault::Read);
        };
        if count == 0 {
            return Ok(());
        }
        let over = take(client, alloc, cluster, decoder, &piece[..count], &mut out)?;
        write_all(writer, out.as_slice())?;
        if over {
            return Ok(());
        }
    }
}

// Takes a piece of the input, carries out the commands that are whole with it, and puts the replies to them, and to a
// fault after them, into `out`. Returns whether there is a fault.
fn take<By, C: Cluster<By>>(
    client: &Client,
    alloc: Global,
    cluster: &mut C,
    decoder: &mut Decoder,
    piece: &[u8],
    out: &mut BytesMut,
) -> Result<bool, LocalFault>
    ensures ok { (stream : List ℕ) (commands : List (List (List ℕ)))
        → IsTalk client.now.name client.now.founders decoder.old (C.took cluster.old) stream commands
        → OnOk result (Answers client.now.name client.now.founders decoder.new (C.took cluster.new) (stream ++ piece.now) commands out.new.items) }
    ensures err { (stream : List ℕ) (commands : List (List (List ℕ)))
        → IsTalk client.now.name client.now.founders decoder.old (C.took cluster.old) stream commands
        → OnErr result (BreaksOff client.now.name client.now.founders (C.took cluster.new) (stream ++ piece.now) commands) }
    ensures over { IfOk result (λ over. over ≡ is_faulty decoder.new.ending) }
    ensures refused { IfErr result (λ f. f ≡ LocalFault.Memory) }
{
    out.clear();
    let rest = answer_front(client, alloc, cluster, decoder, piece, out)?;
    take_rest(client, alloc, cluster, decoder, rest, out)
}

// Carries out the command that has begun, and the brief commands that follow it at the front of a piece of the input, and
// appends the replies to them. Returns what follows them.
fn answer_front<'a, By, C: Cluster<By>>(
    client: &Client,
    alloc: Global,
    cluster: &mut C,
    decoder: &mut Decoder,
    piece: &'a [u8],
    out: &mut BytesMut,
) -> Result<&'a [u8], LocalFault>
    ensures ok { (stream : List ℕ) (commands : List (List (List ℕ)))
        → IsTalk client.now.name client.now.founders decoder.old (C.took cluster.old) stream commands
        → IfOk result (λ rest. CarriesFront client.now.name client.now.founders decoder.new (C.took cluster.new) stream commands piece.now rest.now out.old.items out.new.items) }
    ensures err { (stream : List ℕ) (commands : List (List (List ℕ)))
        → IsTalk client.now.name client.now.founders decoder.old (C.took cluster.old) stream commands
        → OnErr result (BreaksOff client.now.name client.now.founders (C.took cluster.new) (stream ++ piece.now) commands) }
    ensures refused { IfErr result (λ f. f ≡ LocalFault.Memory) }
{
    let mut rest = answer_begun(client, alloc, cluster, decoder, piece, out)?;
    while let Some((command, behind)) = decoder.next_in(rest) {
        answer_brief(client, alloc, cluster, command, out)?;
        rest = behind;
    }
    Ok(rest)
}

// Takes a piece of the input as far as it belongs to the command that has begun, carries that out if it is whole, and
// appends the reply to it. Returns what follows it.
fn answer_begun<'a, By, C: Cluster<By>>(
    client: &Client,
    alloc: Global,
    cluster: &mut C,
    decoder: &mut Decoder,
    piece: &'a [u8],
    out: &mut BytesMut,
) -> Result<&'a [u8], LocalFault>
    ensures ok { (stream : List ℕ) (commands : List (List (List ℕ)))
        → IsTalk client.now.name client.now.founders decoder.old (C.took cluster.old) stream commands
        → IfOk result (λ rest. CarriesFront client.now.name client.now.founders decoder.new (C.took cluster.new) stream commands piece.now rest.now out.old.items out.new.items) }
    ensures err { (stream : List ℕ) (commands : List (List (List ℕ)))
        → IsTalk client.now.name client.now.founders decoder.old (C.took cluster.old) stream commands
        → OnErr result (BreaksOff client.now.name client.now.founders (C.took cluster.new) (stream ++ piece.now) commands) }
    ensures refused { IfErr result (λ f. f ≡ LocalFault.Memory) }
{
    let rest = feed_begun(decoder, piece)?;
    let _fault = answer_all(client, alloc, cluster, decoder, out)?;
    Ok(rest)
}

// Has a decoder take of a piece of the input what belongs to the command that has begun. Returns what follows it, which
// is nothing after a fault.
fn feed_begun<'a>(decoder: &mut Decoder, piece: &'a [u8]) -> Result<&'a [u8], LocalFault>
    ensures ok { (stream : List ℕ) (given : ℕ) → HasTaken decoder.old stream given
        → IfOk result (λ rest. HasTakenFront decoder.new stream piece.now rest.now given) }
    ensures refused { IfErr result (λ f. f ≡ LocalFault.Memory) }
{
    match decoder.feed_begun(piece) {
        Ok(rest) => Ok(rest),
        Err(fault) => {
            is_of_stream(fault)?;
            Ok(b"")
        }
    }
}

// `Memory` where memory ran out: any other fault is one of the stream.
fn is_of_stream(fault: Fault) -> Result<(), LocalFault>
    ensures ok { OnOk result (fault ≢ Fault.OutOfMemory) }
    ensures refused { IfErr result (λ f. f ≡ LocalFault.Memory) }
{
    match fault {
        Fault::OutOfMemory => Err(LocalFault::Memory),
        _ => Ok(()),
    }
}

// Does what `take` does with what is left of a piece, and appends the replies.
fn take_rest<By, C: Cluster<By>>(
    client: &Client,
    alloc: Global,
    cluster: &mut C,
    decoder: &mut Decoder,
    piece: &[u8],
    out: &mut BytesMut,
) -> Result<bool, LocalFault>
    ensures ok { (stream : List ℕ) (commands : List (List (List ℕ)))
        → IsTalk client.now.name client.now.founders decoder.old (C.took cluster.old) stream commands
        → OnOk result (AppendsAnswers client.now.name client.now.founders decoder.new (C.took cluster.new) (stream ++ piece.now) commands out.old.items out.new.items) }
    ensures err { (stream : List ℕ) (commands : List (List (List ℕ)))
        → IsTalk client.now.name client.now.founders decoder.old (C.took cluster.old) stream commands
        → OnErr result (BreaksOff client.now.name client.now.founders (C.took cluster.new) (stream ++ piece.now) commands) }
    ensures over { IfOk result (λ over. over ≡ is_faulty decoder.new.ending) }
    ensures refused { IfErr result (λ f. f ≡ LocalFault.Memory) }
{
    feed(decoder, piece)?;
    match answer_all(client, alloc, cluster, decoder, out)? {
        Some(fault) => {
            write_fault(alloc, fault, out)?;
            Ok(true)
        }
        None => Ok(false),
    }
}

// Has a decoder take a piece of the input, which may have a fault.
fn feed(decoder: &mut Decoder, piece: &[u8]) -> Result<(), LocalFault>
    ensures ok { (stream : List ℕ) (given : ℕ) → HasTaken decoder.old stream given
        → OnOk result (HasTaken decoder.new (stream ++ piece.now) given) }
    ensures refused { IfErr result (λ f. f ≡ LocalFault.Memory) }
{
    match decoder.feed(piece) {
        Ok(()) => Ok(()),
        Err(Fault::OutOfMemory) => Err(LocalFault::Memory),
        Err(_) => Ok(()),
    }
}

// Carries out the whole commands of a decoder, and appends the replies to them. Returns the fault after them, if there
// is one.
fn answer_all<By, C: Cluster<By>>(
    client: &Client,
    alloc: Global,
    cluster: &mut C,
    decoder: &mut Decoder,
    out: &mut BytesMut,
) -> Result<Option<Fault>, LocalFault>
    ensures ok { (qs : List AnyRequest) → HasDone client.now.name client.now.founders qs (C.took cluster.old)
        → OnOk result (HasDone client.now.name client.now.founders (qs ++ requests decoder.old.waiting) (C.took cluster.new)) }
    ensures written { (qs : List AnyRequest) → HasDone client.now.name client.now.founders qs (C.took cluster.old)
        → OnOk result (out.new.items ≡ out.old.items ++ replies (after_all no_values qs) (requests decoder.old.waiting)) }
    ensures err { (qs : List AnyRequest) → HasDone client.now.name client.now.founders qs (C.took cluster.old)
        → OnErr result (HasBegun client.now.name client.now.founders (qs ++ requests decoder.old.waiting) (C.took cluster.new)) }
    ensures given { OnOk result (decoder.new ≡ record decoder.old { waiting = [] }) }
    ensures fault { IfOk result (λ fault. fault ≡ fault_in decoder.old.ending) }
    ensures refused { IfErr result (λ f. f ≡ LocalFault.Memory) }
{
    loop {
        match decoder.next() {
            Ok(Some(command)) => answer_command(client, alloc, cluster, &command, out)?,
            Ok(None) => return Ok(None),
            Err(fault) => return Ok(Some(fault)),
        }
    }
}

// Carries out a command, and appends the reply to it.
fn answer_command<By, C: Cluster<By>>(
    client: &Client,
    alloc: Global,
    cluster: &mut C,
    command: &Command,
    out: &mut BytesMut,
) -> Result<(), LocalFault>
    ensures ok { (qs : List AnyRequest) → HasDone client.now.name client.now.founders qs (C.took cluster.old)
        → OnOk result (HasDone client.now.name client.now.founders (qs ++ request_of command.now ∷ []) (C.took cluster.new)) }
    ensures written { (qs : List AnyRequest) → HasDone client.now.name client.now.founders qs (C.took cluster.old)
        → OnOk result (out.new.items ≡ out.old.items ++ reply_spelling (reply_to (after_all no_values qs) (request_of command.now))) }
    ensures err { (qs : List AnyRequest) → HasDone client.now.name client.now.founders qs (C.took cluster.old)
        → OnErr result (HasBegun client.now.name client.now.founders (qs ++ request_of command.now ∷ []) (C.took cluster.new)) }
    ensures refused { IfErr result (λ f. f ≡ LocalFault.Memory) }
{
    let request = Request::of(alloc, command)?;
    answer(client, cluster, request, out)
}

// Carries out a command that lies in a piece, and appends the reply to it.
fn answer_brief<By, C: Cluster<By>>(
    client: &Client,
    alloc: Global,
    cluster: &mut C,
    command: BriefCommand,
    out: &mut BytesMut,
) -> Result<(), LocalFault>
    ensures ok { (qs : List AnyRequest) → HasDone client.now.name client.now.founders qs (C.took cluster.old)
        → OnOk result (HasDone client.now.name client.now.founders (qs ++ request_of (items_of command.entry) ∷ []) (C.took cluster.new)) }
    ensures written { (qs : List AnyRequest) → HasDone client.now.name client.now.founders qs (C.took cluster.old)
        → OnOk result (out.new.items ≡ out.old.items ++ reply_spelling (reply_to (after_all no_values qs) (request_of (items_of command.entry)))) }
    ensures err { (qs : List AnyRequest) → HasDone client.now.name client.now.founders qs (C.took cluster.old)
        → OnErr result (HasBegun client.now.name client.now.founders (qs ++ request_of (items_of command.entry) ∷ []) (C.took cluster.new)) }
    ensures refused { IfErr result (λ f. f ≡ LocalFault.Memory) }
{
    let request = Request::of_brief(alloc, command)?;
    answer(client, cluster, request, out)
}

// Carries out a request, and appends the reply to it.
fn answer<By, C: Cluster<By>>(
    client: &Client,
    cluster: &mut C,
    request: Request,
    out: &mut BytesMut,
) -> Result<(), LocalFault>
    ensures ok { (qs : List AnyRequest) → HasDone client.now.name client.now.founders qs (C.took cluster.old)
        → OnOk result (HasDone client.now.name client.now.founders (qs ++ request ∷ []) (C.took cluster.new)) }
    ensures written { (qs : List AnyRequest) → HasDone client.now.name client.now.founders qs (C.took cluster.old)
        → OnOk result (out.new.items ≡ out.old.items ++ reply_spelling (reply_to (after_all no_values qs) request)) }
    ensures err { (qs : List AnyRequest) → HasDone client.now.name client.now.founders qs (C.took cluster.old)
        → OnErr result (HasBegun client.now.name client.now.founders (qs ++ request ∷ []) (C.took cluster.new)) }
    ensures refused { IfErr result (λ f. f ≡ LocalFault.Memory) }
{
    let reply = reply_of(client, cluster, request)?;
    append_reply(&reply, out)?;
    Ok(())
}

// Carries out a request, and gives the reply to it.
fn reply_of<By, C: Cluster<By>>(
    client: &Client,
    cluster: &mut C,
    request: Request,
) -> Result<Reply, Refusal>
    ensures reply { (qs : List AnyRequest) → HasDone client.now.name client.now.founders qs (C.took cluster.old)
        → IfOk result (λ r. r ≡ reply_to (after_all no_values qs) request) }
    ensures ok { (qs : List AnyRequest) → HasDone client.now.name client.now.founders qs (C.took cluster.old)
        → OnOk result (HasDone client.now.name client.now.founders (qs ++ request ∷ []) (C.took cluster.new)) }
    ensures err { (qs : List AnyRequest) → HasDone client.now.name client.now.founders qs (C.took cluster.old)
        → OnErr result (HasBegun client.now.name client.now.founders (qs ++ request ∷ []) (C.took cluster.new)) }
{
    match request {
        Request::Says(reply) => Ok(reply),
        Request::Does(op) => {
            let answer = client.operate(cluster, op)?;
            Ok(telling(answer))
        }
    }
}

// Appends the reply to a fault of the input.
fn write_fault(alloc: Global, fault: Fault, out: &mut BytesMut) -> Result<(), LocalFault>
    ensures ok { OnOk result (out.new.items ≡ out.old.items ++ reply_spelling (replying.fault_reply fault)) }
    ensures refused { IfErr result (λ f. f ≡ LocalFault.Memory) }
{
    let reply = fault_reply(alloc, fault)?;
    append_reply(&reply, out)?;
    Ok(())
}
