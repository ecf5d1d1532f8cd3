//! Messages of the server.

ghost use Rattle.json.specs.Json.{Json};
ghost use Rattle.json.specs.Print.{print};
ghost use Rattle.json.specs.Token.{boolean, end_object, key, null, number, string};
ghost use Rattle.json.specs.Tree.{HasNumbers, json_tokens};
ghost use Rattle.json.specs.Value.{value_view};
ghost use Rattle.lsp.specs.Faults.{position_tokens, range_tokens};
ghost use Rattle.lsp.specs.Formatting.{edit_tokens};
ghost use Rattle.lsp.specs.Internal.Nesting.{WritesMembers, WritesValue};
ghost use Rattle.lsp.specs.Replies.{IsFailure, IsId, IsJson, IsLiteral, IsLogWith, IsNumberId, IsReplyFor, IsReplyTo, IsReplyWith, IsSomeJson, IsWritten, error_code, error_json, message_head, notice_head};
ghost use Rattle.lsp.specs.declared.write.Wrong.TheVariants.{Memory};
ghost use Rattle.std.specs.Prelude.{◌≡◌, ◌++◌, ◌∷◌, [], ℕ, List, Err, IfOk, OnErr, OnOk, codes, decimal, string_bytes, true};

use json::{Value, Writer, is_number};
use lsp_text::{Position, Range};
use std::alloc::{AllocError, Global};

/// A message that is being written.
pub(crate) type Out = Writer<Global>;

/// What is wrong with a request.
#[derive(Clone, Copy, PartialEq, Eq, Debug)]
pub(crate) enum Wrong {
    /// The message is no JSON.
    Parse,
    /// The message is no request, or it may not come now.
    Invalid,
    /// There is no such method.
    Method,
    /// The parameters are wrong.
    Params,
    /// Memory is short.
    Memory,
    /// `initialize` did not come yet.
    Early,
    /// The text of the document is not known.
    Unknown,
}

impl Wrong {
    /// Returns the number of the error.
    fn code(self) -> i64
        ensures { result ≡ error_code self }
    {
        match self {
            Wrong::Parse => -32700,
            Wrong::Invalid => -32600,
            Wrong::Method => -32601,
            Wrong::Params => -32602,
            Wrong::Memory => -32603,
            Wrong::Early => -32002,
            Wrong::Unknown => -32803,
        }
    }

    /// Returns what people read.
    fn text(self) -> &'static str {
        match self {
            Wrong::Parse => "the message is not JSON",
            Wrong::Invalid => "the request is not valid",
            Wrong::Method => "there is no such method",
            Wrong::Params => "the parameters are not valid",
            Wrong::Memory => "out of memory",
            Wrong::Early => "`initialize` did not come yet",
            Wrong::Unknown => "the text of the document is not known",
        }
    }

    /// Writes the error of a reply.
    fn put(self, out: &mut Out) -> Result<(), AllocError>
        ensures before { OnOk result (out.new.before ≡ out.old.before) }
        ensures written { OnOk result ((text : List ℕ) × (out.new.tokens ≡ out.old.tokens ++ json_tokens (error_json (error_code self) text))) }
    {
        out.begin_object()?;
        out.key("code")?;
        out.i64(self.code())?;
        put_text(out, "message", self.text())?;
        out.end_object()
    }
}

impl From<AllocError> for Wrong {
    ghost from_gives = { λ _ e. e ≡ Memory };

    fn from(_: AllocError) -> Wrong {
        Wrong::Memory
    }
}

/// Begins a JSON text.
pub(crate) fn begin(alloc: Global) -> Out
    ensures before { result.before ≡ [] }
    ensures tokens { result.tokens ≡ [] }
{
    Writer::new(Vec::new(alloc))
}

/// Ends a JSON text.
pub(crate) fn end(alloc: Global, out: Out) -> String
    ensures text { out.before ≡ [] → string_bytes result ≡ print out.tokens }
    ensures value { (j : Json) → IsWritten out (json_tokens j) → IsJson j (string_bytes result) }
{
    match String::from_utf8(out.into_inner()) {
        Ok(text) => text,
        Err(_) => String::new(alloc),
    }
}

/// Returns null as JSON.
pub(crate) fn null_json(alloc: Global) -> Result<String, AllocError>
    ensures null { IfOk result (λ out. string_bytes out ≡ print (null ∷ [])) }
    ensures json { IfOk result IsSomeJson }
{
    let mut out = begin(alloc);
    out.null()?;
    Ok(end(alloc, out))
}

/// Begins a message, in an empty buffer.
fn begin_message(buffer: Vec<u8>) -> Result<Out, AllocError>
    ensures { buffer.items ≡ [] → IfOk result (λ out. IsWritten out message_head) }
{
    let mut out = Writer::new(buffer);
    out.begin_object()?;
    put_text(&mut out, "jsonrpc", "2.0")?;
    Ok(out)
}

/// Ends a message.
pub(crate) fn finish(alloc: Global, out: Out) -> Result<String, AllocError>
    ensures { IfOk result (λ m. out.before ≡ [] → string_bytes m ≡ print (out.tokens ++ end_object ∷ [])) }
{
    let mut out = out;
    out.end_object()?;
    Ok(end(alloc, out))
}

/// Begins a notification, up to its parameters.
pub(crate) fn begin_notice(alloc: Global, method: &str) -> Result<Out, AllocError>
    ensures { IfOk result (λ out. IsWritten out (notice_head method.now)) }
{
    let mut out = begin_message(Vec::new(alloc))?;
    put_text(&mut out, "method", method)?;
    out.key("params")?;
    Ok(out)
}

/// Returns the reply to the request of an identifier: its result as JSON, or what is wrong with it.
pub(crate) fn reply_to(
    alloc: Global,
    id: &Value<'_>,
    content: Result<String, Wrong>,
) -> Result<String, AllocError>
    requires { IfOk content IsSomeJson }
    ensures content { IfOk result (IsReplyFor (value_view id.now) content) }
    ensures reply { IfOk result (IsReplyTo (value_view id.now)) }
    ensures error { OnErr content (IfOk result (IsFailure (value_view id.now))) }
{
    match content {
        Ok(content) => success(alloc, id, &content),
        Err(wrong) => failure(alloc, Vec::new(alloc), id, wrong),
    }
}

/// Returns the reply to the request of an identifier that says what is wrong, written into an empty buffer.
pub(crate) fn failure(
    alloc: Global,
    buffer: Vec<u8>,
    id: &Value<'_>,
    wrong: Wrong,
) -> Result<String, AllocError>
    ensures { buffer.items ≡ [] → IfOk result (IsReplyFor (value_view id.now) (Err wrong)) }
{
    let mut out = begin_message(buffer)?;
    put_id(&mut out, id)?;
    out.key("error")?;
    wrong.put(&mut out)?;
    out.end_object()?;
    Ok(end(alloc, out))
}

/// Returns the reply to the request of an identifier with a result, which is JSON.
fn success(alloc: Global, id: &Value<'_>, content: &str) -> Result<String, AllocError>
    ensures { (j : Json) → IsJson j content.now → IfOk result (IsReplyWith (codes "result") j (value_view id.now)) }
{
    let mut out = begin_message(Vec::new(alloc))?;
    put_id(&mut out, id)?;
    out.key("result")?;
    let mut reply = end(alloc, out);
    reply.push_str(content)?;
    reply.push_str("}")?;
    Ok(reply)
}

/// Returns a message for the log of the client.
pub(crate) fn log_notice(alloc: Global, text: &str) -> Result<String, AllocError>
    ensures { IfOk result (IsLogWith text.now) }
{
    let mut out = begin_notice(alloc, "window/logMessage")?;
    out.begin_object()?;
    put_number(&mut out, "type", 1)?;
    put_text(&mut out, "message", text)?;
    out.end_object()?;
    finish(alloc, out)
}

/// Writes the identifier of a request: a number, a string or null.
fn put_id(out: &mut Out, id: &Value<'_>) -> Result<(), AllocError>
    ensures before { out.new.before ≡ out.old.before }
    ensures written { OnOk result ((i : Json) × HasNumbers i × IsId (value_view id.now) i
        × (out.new.tokens ≡ out.old.tokens ++ key (codes "id") ∷ json_tokens i)) }
{
    out.key("id")?;
    match id.as_str() {
        Some(text) => out.string(text),
        None => put_number_id(out, id),
    }
}

/// Writes an identifier that is no string: a number with the same text, or null.
fn put_number_id(out: &mut Out, id: &Value<'_>) -> Result<(), AllocError>
    ensures before { out.new.before ≡ out.old.before }
    ensures written { OnOk result ((i : Json) × HasNumbers i × IsNumberId (value_view id.now) i
        × (out.new.tokens ≡ out.old.tokens ++ json_tokens i)) }
{
    match id.as_number() {
        Some(text) => put_literal(out, text),
        None => out.null(),
    }
}

/// Writes a number with the same text, or null if it is no number of JSON.
fn put_literal(out: &mut Out, text: &str) -> Result<(), AllocError>
    ensures before { out.new.before ≡ out.old.before }
    ensures written { OnOk result ((i : Json) × HasNumbers i × IsLiteral text.now i
        × (out.new.tokens ≡ out.old.tokens ++ json_tokens i)) }
{
    if is_number(text) {
        out.number(text)
    } else {
        out.null()
    }
}

/// Writes a member that is a text.
pub(crate) fn put_text(out: &mut Out, name: &str, text: &str) -> Result<(), AllocError>
    ensures before { out.new.before ≡ out.old.before }
    ensures written { OnOk result (out.new.tokens ≡ out.old.tokens ++ key name.now ∷ string text.now ∷ []) }
    ensures members { OnOk result (WritesMembers out.old out.new) }
{
    out.key(name)?;
    out.string(text)
}

/// Writes a member that is a number.
pub(crate) fn put_number(out: &mut Out, name: &str, n: usize) -> Result<(), AllocError>
    ensures before { out.new.before ≡ out.old.before }
    ensures written { OnOk result (out.new.tokens ≡ out.old.tokens ++ key name.now ∷ number (decimal n) ∷ []) }
    ensures members { OnOk result (WritesMembers out.old out.new) }
{
    out.key(name)?;
    out.u64(n as u64)
}

/// Writes a member that is true.
pub(crate) fn put_true(out: &mut Out, name: &str) -> Result<(), AllocError>
    ensures before { out.new.before ≡ out.old.before }
    ensures written { OnOk result (out.new.tokens ≡ out.old.tokens ++ key name.now ∷ boolean true ∷ []) }
    ensures members { OnOk result (WritesMembers out.old out.new) }
{
    out.key(name)?;
    out.boolean(true)
}

/// Writes a member that is a position.
fn put_position(out: &mut Out, name: &str, position: Position) -> Result<(), AllocError>
    ensures before { OnOk result (out.new.before ≡ out.old.before) }
    ensures written { OnOk result (out.new.tokens ≡ out.old.tokens ++ key name.now ∷ position_tokens position) }
    ensures members { OnOk result (WritesMembers out.old out.new) }
{
    out.key(name)?;
    out.begin_object()?;
    put_number(out, "line", position.line)?;
    put_number(out, "character", position.character)?;
    out.end_object()
}

/// Writes a member that is a range.
pub(crate) fn put_range(out: &mut Out, name: &str, range: Range) -> Result<(), AllocError>
    ensures before { OnOk result (out.new.before ≡ out.old.before) }
    ensures written { OnOk result (out.new.tokens ≡ out.old.tokens ++ key name.now ∷ range_tokens range) }
    ensures members { OnOk result (WritesMembers out.old out.new) }
{
    out.key(name)?;
    out.begin_object()?;
    put_position(out, "start", range.start)?;
    put_position(out, "end", range.end)?;
    out.end_object()
}

/// Writes an edit of a text.
pub(crate) fn put_edit(out: &mut Out, range: Range, new: &str) -> Result<(), AllocError>
    ensures before { OnOk result (out.new.before ≡ out.old.before) }
    ensures written { OnOk result (out.new.tokens ≡ out.old.tokens ++ edit_tokens range new.now) }
    ensures value { OnOk result (WritesValue out.old out.new) }
{
    out.begin_object()?;
    put_range(out, "range", range)?;
    put_text(out, "newText", new)?;
    out.end_object()
}
