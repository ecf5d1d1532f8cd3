//! A session over an input and an output.

ghost use Rattle.lsp.specs.Replies.{IsReplyFor};
ghost use Rattle.lsp.specs.Messages.{Asks};
ghost use Rattle.lsp.specs.Turns.{IsEnd, IsLost, IsStep, Published, Serves, ServesFrames, TakesFrames, Took};
ghost use Rattle.lsp_documents.specs.States.{SessionStays, is_over};
ghost use Rattle.lsp.specs.declared.write.Wrong.{Wrong};
ghost use Rattle.lsp_frames.specs.Frames.{frame_in, frame_of};
ghost use Rattle.json.specs.Json.{Json};
ghost use Rattle.std.specs.Io.{ReadsAtMost};
ghost use Rattle.std.specs.Io.KnownBytes.{Appends, IsAtEnd, ReadConsumes};
ghost use Rattle.std.specs.Prelude.{◌≡◌, ◌+◌, ◌↔◌, ℕ, List, Err, IfOk, IsNone, MatchOption, None, OnOk, Option, false, flat_map, map, string_bytes, true};

use crate::message::replies;
use crate::publish::faults;
use crate::request::request_id;
use crate::write::{Wrong, failure};
use json::{Error, Scratch};
use lsp_documents::{Phase, State};
use lsp_frames::{Frames, write_frame};
use std::alloc::{AllocError, Global};
use std::io::{ErrorKind, Read, Write};
use std::str::from_utf8;
use std::{io, mem};

/// How many bytes are read at a time, at most.
const CHUNK: usize = 8192;

/// How often a read that is interrupted is done, at most.
const READS: usize = 1000;

/// How many bytes the input has, at most.
const MOST_BYTES: u64 = u64::MAX;

/// How many bytes a reply that memory is short has, in most cases.
const SHORT_REPLY: usize = 1024;

/// The message that memory is short.
const SHORT: &str =
    r#"{"jsonrpc":"2.0","method":"window/logMessage","params":{"type":1,"message":"kdl: out of memory"}}"#;

/// The message where memory is short for a message of the client or for what is sent for it.
const LOST: &str =
    r#"{"jsonrpc":"2.0","method":"window/logMessage","params":{"type":1,"message":"kdl: out of memory: open the documents again"}}"#;

/// Why a session ends.
#[derive(Clone, Copy, Debug, PartialEq, Eq)]
pub enum End {
    /// `exit` came: whether `shutdown` came before.
    Exit { was_down: bool },
    /// Bytes came that are no frame.
    NoFrame,
    /// The input ended before `exit`.
    EndOfInput,
    /// The input ended in a frame.
    EndInFrame,
}

impl End {
    /// Returns why the session ended otherwise than by `exit` after `shutdown`.
    pub fn why(self) -> Option<&'static str>
        ensures { IsNone result ↔ (self ≡ End.Exit true) }
    {
        match self {
            End::Exit { was_down: true } => None,
            End::Exit { was_down: false } => Some("`exit` came before `shutdown`"),
            End::NoFrame => Some("the head of a frame gives no length"),
            End::EndOfInput => Some("the input ended before `exit`"),
            End::EndInFrame => Some("the input ended in a frame"),
        }
    }
}

/// Memory that is there before it is needed: to read a request again, and for the reply that memory is short.
#[derive(Drop)]
struct Spare {
    scratch: Scratch,
    reply: Vec<u8>,
}

/// Reads messages from the input and writes those of the server to the output, up to `exit`, the end of the input, or what
/// is no frame. Returns why it ended.
///
/// The messages of all frames that are whole are taken before faults are published, once for each document that changed.
/// Each request gets one reply; where memory is short for it, that is an error.
///
/// Returns errors of the input and the output. Returns `OutOfMemory` if there is no memory to read more of the input, or for
/// the identifier of a request that memory is short for.
pub fn serve<R: Read, W: Write>(alloc: Global, input: &mut R, output: &mut W) -> io::Result<End>
    ensures { IfOk result (Serves (R.remaining input.old) (R.remaining input.new) (W.contents output.old) (W.contents output.new)) }
{
    let mut state = State::new(alloc);
    let mut frames = Frames::new(alloc);
    let mut spare = Spare {
        scratch: Scratch::new(alloc),
        reply: Vec::with_capacity(alloc, SHORT_REPLY)?,
    };
    let mut chunk = [0u8; CHUNK];
    // Each turn takes at least one of the bytes that may come.
    let mut left = MOST_BYTES;
    loop {
        frames.reserve(CHUNK)?;
        spare.scratch.reserve(frames.len().saturating_add(CHUNK))?;
        let count = read_some(input, &mut chunk)?;
        if count == 0 {
            return Ok(end_of_input(&frames));
        }
        left = left_after(left, count)?;
        frames.push(&chunk[..count])?;
        serve_frames(alloc, &mut state, &mut frames, &mut spare, output)?;
        if let Phase::Over { was_down } = state.phase {
            return Ok(End::Exit { was_down });
        }
        if frames.is_bad() {
            return Ok(End::NoFrame);
        }
    }
}

/// Returns why a session ends whose input ended before `exit`.
fn end_of_input(frames: &Frames) -> End
    ensures { (s : State) (left : Option (List ℕ)) → is_over s.phase ≡ false → IsAtEnd left → frame_in frames.now ≡ None → IsEnd result s frames.now left }
{
    if frames.len() == 0 {
        End::EndOfInput
    } else {
        End::EndInFrame
    }
}

/// Returns how many bytes may come after some more, or an error if so many may not.
fn left_after(left: u64, count: usize) -> io::Result<u64>
    ensures { IfOk result (λ rest. left ≡ rest + count) }
{
    match left.checked_sub(count as u64) {
        Some(rest) => Ok(rest),
        None => Err(io::Error::from(ErrorKind::FileTooLarge)),
    }
}

/// Reads bytes of the input into a buffer, and returns how many. A read that is interrupted is done again, up to a thousand
/// times.
fn read_some<R: Read>(input: &mut R, chunk: &mut [u8]) -> io::Result<usize>
    ensures bound { ReadsAtMost result chunk.new }
    ensures bytes { ReadConsumes (R.remaining input.old) (R.remaining input.new) result chunk.new }
{
    for _ in 1..READS {
        match input.read(chunk) {
            Err(error) if error.kind() == ErrorKind::Interrupted => {}
            read => return read,
        }
    }
    input.read(chunk)
}

/// Takes the messages of the whole frames, and publishes the faults of the documents that are due after the last one. The
/// replies are sent before faults are looked for.
fn serve_frames<W: Write>(
    alloc: Global,
    state: &mut State,
    frames: &mut Frames,
    spare: &mut Spare,
    output: &mut W,
) -> io::Result<()>
    ensures { OnOk result (ServesFrames state.old frames.old frames.new (W.contents output.old) (W.contents output.new) state.new) }
{
    take_frames(alloc, state, frames, spare, output)?;
    output.flush()?;
    publish(alloc, state, output)?;
    output.flush()
}

/// Publishes the faults of the documents that are due.
fn publish<W: Write>(alloc: Global, state: &mut State, output: &mut W) -> io::Result<()>
    ensures session { SessionStays state.old state.new }
    ensures step { OnOk result ((sent : List (List ℕ)) × IsStep (Published sent) state.old state.new
        × Appends (W.contents output.old) (W.contents output.new) (flat_map frame_of sent)) }
{
    match faults(alloc, state) {
        Ok(messages) => write_messages(output, &messages),
        Err(AllocError) => write_frame(output, SHORT),
    }
}

/// Takes the messages of the whole frames, up to `exit`, and sends the messages for them but for faults.
fn take_frames<W: Write>(
    alloc: Global,
    state: &mut State,
    frames: &mut Frames,
    spare: &mut Spare,
    output: &mut W,
) -> io::Result<()>
    ensures { OnOk result (TakesFrames state.old frames.old frames.new (W.contents output.old) (W.contents output.new) state.new) }
{
    while let Some(message) = frames.next_message() {
        take_message(alloc, state, message, spare, output)?;
        if state.is_over() {
            return Ok(());
        }
    }
    Ok(())
}

/// Takes a message, and sends the messages for it but for faults. Bytes that are no text are no JSON: so is the empty text.
fn take_message<W: Write>(
    alloc: Global,
    state: &mut State,
    message: &[u8],
    spare: &mut Spare,
    output: &mut W,
) -> io::Result<()>
    ensures { OnOk result ((sent : List (List ℕ)) × IsStep (Took message.now sent) state.old state.new
        × Appends (W.contents output.old) (W.contents output.new) (flat_map frame_of sent)) }
{
    let text = from_utf8(message).unwrap_or("");
    match replies(alloc, state, text, &mut spare.scratch) {
        Ok(messages) => write_messages(output, &messages),
        Err(AllocError) => write_lost(alloc, text, spare, output),
    }
}

/// Writes messages.
fn write_messages<W: Write>(output: &mut W, messages: &[String]) -> io::Result<()>
    ensures { OnOk result (Appends (W.contents output.old) (W.contents output.new) (flat_map frame_of (map string_bytes messages.now))) }
{
    for message in messages {
        write_frame(output, message)?;
    }
    Ok(())
}

/// Writes what is sent for a text where memory is short.
fn write_lost<W: Write>(
    alloc: Global,
    text: &str,
    spare: &mut Spare,
    output: &mut W,
) -> io::Result<()>
    ensures { OnOk result ((sent : List (List ℕ)) × IsLost text.now sent
        × Appends (W.contents output.old) (W.contents output.new) (flat_map frame_of sent)) }
{
    if let Some(reply) = short_reply(alloc, text, spare)? {
        write_frame(output, &reply)?;
        spare.reply = reply.into_bytes();
    }
    write_frame(output, LOST)
}

/// Returns the reply that memory is short, if the text is a request.
fn short_reply(alloc: Global, text: &str, spare: &mut Spare) -> Result<Option<String>, AllocError>
    ensures { IfOk result (λ reply. MatchOption reply ((id : Json) → Asks text.now id → ⊥)
        (λ m. (id : Json) × Asks text.now id × IsReplyFor id (Err Wrong.Memory) m)) }
{
    match request_id(alloc, text, &mut spare.scratch) {
        Ok(Some(id)) => {
            let mut buffer = mem::replace(&mut spare.reply, Vec::new(alloc));
            buffer.clear();
            Ok(Some(failure(alloc, buffer, &id, Wrong::Memory)?))
        }
        Ok(None) => Ok(None),
        Err(Error::Invalid) => Ok(None),
        Err(_) => Err(AllocError),
    }
}
