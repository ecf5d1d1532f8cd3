//! Names and keys that may come at a place: those of the nodes in the same block.

ghost use Rattle.lsp.specs.Internal.Nesting.{WritesItems};
ghost use Rattle.lsp.specs.Replies.{IsSomeJson};
ghost use Rattle.std.specs.Prelude.{◌≡◌, ◌<◌, [], IfOk, MatchOption, OnOk, length};

use crate::place::{place, range_of};
use crate::scan::{Lexeme, Scanner, is_key, is_line_comment};
use crate::write::{Out, Wrong, begin, end, put_edit, put_number, put_text};
use json::Value;
use kdl::KdlIdentifier;
use kdl_syntax::{Event, Owner, Phase, Spot, Token, TokenKind};
use kdl_text::chars::{is_identifier_char, is_newline_char};
use kdl_text::span::SourceSpan;
use lsp_text::{Encoding, Range};
use std::alloc::{AllocError, Global};
use std::collections::BTreeSet;

/// What may come at a place.
#[derive(Drop)]
enum Wanted {
    /// The name of a node.
    Name,
    /// The key of a node with this name.
    Key(String),
}

/// What is read at a token.
#[derive(Drop)]
enum Read {
    /// The name of a node, which the reader has.
    Name,
    Key(String),
    Other,
}

/// How names or keys are offered: their kind in the protocol, what is inserted after them, and what they replace.
#[derive(Clone, Copy)]
struct Form {
    kind: usize,
    end: &'static str,
    range: Range,
}

/// A reader of names and keys.
#[derive(Drop)]
struct Reader<'a> {
    text: &'a str,
    scanner: Scanner<'a>,
    /// Where the `{` of each open block is.
    open: Vec<usize>,
    /// The name of the last node.
    name: String,
    /// Where the last token begins.
    start: usize,
    /// Whether the text that was read ends in a comment or after a fault.
    is_lost: bool,
}

/// Returns the names and the keys that may come at the position of a request.
pub(crate) fn completion(
    alloc: Global,
    params: &Value<'_>,
    text: &str,
    encoding: Encoding,
) -> Result<String, Wrong>
    ensures { IfOk result IsSomeJson }
{
    let Some(offset) = place(params, text, encoding) else {
        return Err(Wrong::Params);
    };
    let (before, _) = text.split_at_checked(offset).unwrap_or((text, ""));
    let front = before.trim_end_matches(is_identifier_char);
    let span = SourceSpan {
        offset: front.len(),
        len: before.len().saturating_sub(front.len()),
    };
    let range = range_of(text, span, encoding);
    let mut out = begin(alloc);
    out.begin_array()?;
    put_items(alloc, &mut out, text, front, range)?;
    out.end_array()?;
    Ok(end(alloc, out))
}

/// Writes what may come after the front of a text in place of a range.
fn put_items(
    alloc: Global,
    out: &mut Out,
    text: &str,
    front: &str,
    range: Range,
) -> Result<(), AllocError>
    ensures { OnOk result (WritesItems out.old out.new) }
{
    let mut reader = Reader::new(alloc, front);
    while let Some(_read) = reader.read(alloc)? {}
    let block = reader.block();
    let Some(wanted) = reader.wanted() else {
        return Ok(());
    };
    let rest = text.get(front.len()..).unwrap_or("");
    let rest = rest.trim_start_matches(is_identifier_char);
    let (kind, end) = match wanted {
        Wanted::Name => (7, ""),
        Wanted::Key(_) if is_key(alloc, rest)? => (10, ""),
        Wanted::Key(_) => (10, "="),
    };
    let form = Form { kind, end, range };
    for word in &words(alloc, text, front.len(), block, &wanted)? {
        put_item(alloc, out, word, form)?;
    }
    Ok(())
}

/// Returns the names of the nodes in a block, or the keys of those with a name, without what is at a place.
fn words(
    alloc: Global,
    text: &str,
    place: usize,
    block: Option<usize>,
    wanted: &Wanted,
) -> Result<BTreeSet<String>, AllocError> {
    let mut found: BTreeSet<String> = BTreeSet::new(alloc);
    let mut reader = Reader::new(alloc, text);
    while let Some(read) = reader.read(alloc)? {
        if reader.start == place || reader.block() != block {
            continue;
        }
        match (read, wanted) {
            (Read::Name, Wanted::Name) => {
                found.insert(reader.name.clone()?)?;
            }
            (Read::Key(key), Wanted::Key(name)) if reader.name.as_str() == name.as_str() => {
                found.insert(key)?;
            }
            _ => {}
        }
    }
    Ok(found)
}

impl<'a> Reader<'a> {
    /// At the start of a text.
    fn new(alloc: Global, text: &'a str) -> Reader<'a> {
        Reader {
            text,
            scanner: Scanner::new(alloc, text),
            open: Vec::new(alloc),
            name: String::new(alloc),
            start: 0,
            is_lost: false,
        }
    }

    /// Returns where the `{` of the block is that is open here.
    fn block(&self) -> Option<usize> {
        self.open.last().copied()
    }

    /// Returns what may come here.
    fn wanted(self) -> Option<Wanted> {
        if self.is_lost {
            return None;
        }
        match self.scanner.phase() {
            Phase::Gap | Phase::NodeSlashdash | Phase::TypeDone(Owner::Name) => Some(Wanted::Name),
            Phase::InNode(Spot::Spaced(_)) | Phase::EntrySlashdash => Some(Wanted::Key(self.name)),
            _ => None,
        }
    }

    /// Reads a token, or up to the end of a line with a fault. Returns `None` at the end of the text.
    fn read(&mut self, alloc: Global) -> Result<Option<Read>, AllocError>
        ensures { IfOk result (λ o. MatchOption o (self.old.scanner.cursor.rest ≡ [])
            (λ _. length self.new.scanner.cursor.rest < length self.old.scanner.cursor.rest)) }
    {
        match self.scanner.next(alloc)? {
            Some(Lexeme::Token(token, event)) => Ok(Some(self.take(alloc, token, event)?)),
            Some(Lexeme::Fault { ends_text }) => {
                self.is_lost = ends_text;
                Ok(Some(Read::Other))
            }
            None => Ok(None),
        }
    }

    /// Takes a token, which the scanner has read.
    fn take(&mut self, alloc: Global, token: Token<'_>, event: Event) -> Result<Read, AllocError>
        ensures { self.new.scanner ≡ self.old.scanner }
    {
        let (start, end) = (token.at.start.at(), token.at.end.at());
        let text = self.text.get(start..end).unwrap_or("");
        self.start = start;
        self.is_lost = is_line_comment(&token.kind, text) && !text.ends_with(is_newline_char);
        match (event, token.kind) {
            (Event::Name | Event::TypedName, TokenKind::String(name)) => {
                self.name = name;
                return Ok(Read::Name);
            }
            (Event::Word, TokenKind::String(word)) => {
                if is_key(alloc, self.text.get(end..).unwrap_or(""))? {
                    return Ok(Read::Key(word));
                }
            }
            (Event::Opening(_), _) => self.open.push(start)?,
            (Event::GapClosing | Event::NodeClosing | Event::KeptClosing, _) => {
                self.open.pop();
            }
            _ => {}
        }
        Ok(Read::Other)
    }
}

/// Writes a name or a key as it is spelled.
fn put_item(alloc: Global, out: &mut Out, word: &str, form: Form) -> Result<(), AllocError>
    ensures { OnOk result (WritesItems out.old out.new) }
{
    let Form { kind, end, range } = form;
    let label = KdlIdentifier::from_text(alloc, word)?.to_string(alloc)?;
    let new = format!(in alloc; "{label}{end}")?;
    out.begin_object()?;
    put_text(out, "label", &label)?;
    put_number(out, "kind", kind)?;
    put_text(out, "filterText", word)?;
    out.key("textEdit")?;
    put_edit(out, range, &new)?;
    out.end_object()
}
