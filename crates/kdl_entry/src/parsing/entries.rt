//! Entries that are a whole text, read token by token.
#![tactic(auto, using(crate::proofs::Rules::entries))]

ghost use Rattle.kdl_entry.specs.Internal.Building.{parts_view};
ghost use Rattle.kdl_entry.specs.Internal.EntryMachine as machine;
ghost use Rattle.kdl_entry.specs.Internal.EntryMachine.{argument_of, begin_to, ended, finish, phase_of, step, value_of, value_to, word_to};
ghost use Rattle.kdl_entry.specs.Internal.Counted.{EndsIn, Recounted, Within};
ghost use Rattle.kdl_entry.specs.Internal.EntryReading.{word_view, state_view, AnswersEntryText, Stands, Takes, Ended};
ghost use Rattle.kdl_syntax.specs.Internal.Handed.{kind_view};
ghost use Rattle.kdl_entry.specs.Places.{between};
ghost use Rattle.kdl_value.specs.Tree.{value_tree};
ghost use Rattle.kdl_entry.specs.Tree.{entry_tree};
ghost use Rattle.std.specs.Prelude.{◌≡◌, [], None, Some, IfOk, option_map};
ghost use Rattle.std.specs.Str.{chars};

use super::parts::{Given, Parts, entry_from};
use super::texts::{span_between, text_between, token_text};
use crate::entry::KdlEntry;
use crate::identifier::sliced_identifier;
use kdl_diagnostics::{Whole, failure};
use kdl_syntax::{EntryControl, LexFailure, Phase, Token, TokenKind, TokenSpan, lexer};
use kdl_text::cursor::{Checkpoint, Cursor, Piece, Steps};
use kdl_text::error::ParseFailure;
use kdl_text::span::SourceSpan;
use kdl_value::KdlValue;
use std::alloc::{AllocError, Global};

/// The span of an entry before the end of its text is read.
const UNPLACED: SourceSpan = SourceSpan { offset: 0, len: 0 };

/// A string that may still be a key.
#[derive(Drop)]
struct PendingWord<'a> {
    /// The text before it.
    leading: String,
    value: String,
    /// Its spelling, which is copied if it differs from the string.
    repr: Piece<'a>,
    span: SourceSpan,
    /// Where it ends.
    end: Checkpoint<'a>,
}

/// What of the text was read so far.
#[derive(Drop)]
enum State<'a> {
    /// Only line-spaces.
    Start,
    /// A slashdash, and perhaps the entry that it drops and spaces after that, up to this phase.
    Dropping(Phase),
    /// An entry being read, which has a type or a key, in this phase.
    Under(Phase, Parts<'a>),
    /// A string that may still be a key.
    Pending(PendingWord<'a>),
    /// The entry, and where it ended.
    Done(KdlEntry, Checkpoint<'a>),
}

/// The word as an argument.
fn argument(alloc: Global, word: PendingWord) -> Result<KdlEntry, AllocError>
    ensures { IfOk result (λ e. entry_tree e ≡ argument_of (word_view word.entry)) }
{
    let repr = word.repr.to_string(alloc)?;
    let value = KdlValue::String(word.value);
    Ok(entry_from(alloc, UNPLACED, word.leading, Given::plain(value), repr))
}

/// Takes a token before the entry. The control goes to `next`.
fn begin_to<'a>(
    next: EntryControl,
    cursor: &mut Cursor<'a>,
    alloc: Global,
    token: Token<'a>,
) -> Result<State<'a>, LexFailure>
    requires leading { EndsIn cursor.old.text token.at.start.rest }
    ensures { Takes (begin_to cursor.old.text next
        (kind_view token.entry.kind) token.entry.at.start.rest token.entry.at.end.rest)
        result cursor.old cursor.new }
{
    let Token { kind, at } = token;
    let start = cursor.start();
    match (next, kind) {
        (EntryControl::Ahead, _) => Ok(State::Start),
        (EntryControl::Dropping(phase), _) => Ok(State::Dropping(phase)),
        (EntryControl::Under(phase), _) => {
            let leading = text_between(cursor, alloc, &start, &at.start)?;
            let mut parts = Parts::new(alloc, &at.start);
            parts.open(leading, &at.start, &at.end);
            Ok(State::Under(phase, parts))
        }
        (EntryControl::Word, TokenKind::String(value)) => {
            let leading = text_between(cursor, alloc, &start, &at.start)?;
            Ok(State::Pending(PendingWord {
                leading,
                value,
                repr: cursor.slice_between(&at.start, &at.end),
                span: span_between(cursor, &at.start, &at.end),
                end: at.end,
            }))
        }
        (EntryControl::Done, TokenKind::Value(value)) => {
            let leading = text_between(cursor, alloc, &start, &at.start)?;
            let repr = token_text(cursor, alloc, &at)?;
            let entry = entry_from(alloc, UNPLACED, leading, Given::plain(value), repr);
            Ok(State::Done(entry, at.end))
        }
        _ => Err(LexFailure::Faulty),
    }
}

/// The value that a token is.
fn value_of(kind: TokenKind) -> Option<KdlValue>
    ensures { option_map value_tree result ≡ value_of (kind_view kind) }
{
    match kind {
        TokenKind::String(value) => Some(KdlValue::String(value)),
        TokenKind::Value(value) => Some(value),
        _ => None,
    }
}

/// Takes the token that is the value of the entry.
fn at_value<'a>(
    phase: Phase,
    mut parts: Parts<'a>,
    cursor: &mut Cursor<'a>,
    token: Token<'a>,
) -> Result<State<'a>, LexFailure>
    requires from { Within cursor.old parts.from token.at.start }
    ensures { Takes (value_to phase (parts_view parts.entry)
        (kind_view token.entry.kind) token.entry.at.start.rest token.entry.at.end.rest)
        result cursor.old cursor.new }
{
    let Token { kind, at } = token;
    let Some(value) = value_of(kind) else {
        return Err(LexFailure::Faulty);
    };
    let given = parts.give(phase, cursor, value, &at.start)?;
    let repr = token_text(cursor, parts.alloc, &at)?;
    let entry = entry_from(parts.alloc, UNPLACED, parts.leading, given, repr);
    Ok(State::Done(entry, at.end))
}

/// Takes a token after a string that may still be a key. The control goes to `next`.
fn word_to<'a>(
    next: EntryControl,
    word: PendingWord<'a>,
    cursor: &mut Cursor<'a>,
    alloc: Global,
    at: &TokenSpan<'a>,
) -> Result<State<'a>, AllocError>
    requires { Within cursor.old word.end at.now.start }
    ensures is { IfOk result (λ st. state_view st
        ≡ word_to cursor.old.text (word_view word.entry) word.entry.end.rest next
        at.now.start.rest at.now.end.rest) }
    ensures same { Recounted cursor.old cursor.new }
{
    match next {
        EntryControl::Word => Ok(State::Pending(word)),
        EntryControl::Under(phase) => {
            let before = text_between(cursor, alloc, &word.end, &at.start)?;
            let name = sliced_identifier(alloc, word.value, &word.repr, word.span)?;
            let start = cursor.start();
            let mut parts = Parts::new(alloc, &start);
            parts.open(word.leading, &start, &at.end);
            parts.name = name;
            parts.before = before;
            Ok(State::Under(phase, parts))
        }
        _ => {
            let end = word.end.copied();
            Ok(State::Done(argument(alloc, word)?, end))
        }
    }
}

/// The entry, whose span is the whole text, with the text after it, which ends here.
fn ended<'a>(
    mut entry: KdlEntry,
    cursor: &mut Cursor<'a>,
    alloc: Global,
    from: &Checkpoint<'a>,
    here: &Checkpoint<'a>,
) -> Result<KdlEntry, AllocError>
    requires end { here.now.rest ≡ [] }
    requires from { Within cursor.old from.now here.now }
    ensures { IfOk result (λ e. entry_tree e
        ≡ machine.ended cursor.old.text (between from.now.rest []) (entry_tree entry)) }
{
    let trailing = text_between(cursor, alloc, from, here)?;
    if let Some(format) = entry.format_mut() {
        format.trailing = trailing;
    }
    entry.set_span(span_between(cursor, &cursor.start(), here));
    Ok(entry)
}

impl<'a> State<'a> {
    /// The control here.
    fn control(&self) -> EntryControl
        ensures { result ≡ phase_of (state_view self.now) }
    {
        match self {
            State::Start => EntryControl::Ahead,
            State::Dropping(phase) => EntryControl::Dropping(*phase),
            State::Under(phase, _) => EntryControl::Under(*phase),
            State::Pending(_) => EntryControl::Word,
            State::Done(_, _) => EntryControl::Done,
        }
    }

    /// Takes a token. Fails if the token may not be here.
    fn take(
        self,
        cursor: &mut Cursor<'a>,
        alloc: Global,
        token: Token<'a>,
    ) -> Result<State<'a>, LexFailure>
        requires leading { EndsIn cursor.old.text token.at.start.rest }
        requires from { Stands cursor.old.text (state_view self) token.at.start.rest }
        ensures { Takes (step cursor.old.text (state_view self.entry)
            (kind_view token.entry.kind) token.entry.at.start.rest token.entry.at.end.rest)
            result cursor.old cursor.new }
    {
        let Some(next) = self.control().after(&token.kind) else {
            return Err(LexFailure::Faulty);
        };
        match self {
            State::Start | State::Dropping(_) => begin_to(next, cursor, alloc, token),
            State::Under(phase, mut parts) => match next {
                EntryControl::Under(next) => {
                    parts.take(phase, cursor, token)?;
                    Ok(State::Under(next, parts))
                }
                _ => at_value(phase, parts, cursor, token),
            },
            State::Pending(word) => Ok(word_to(next, word, cursor, alloc, &token.at)?),
            State::Done(entry, from) => Ok(State::Done(entry, from)),
        }
    }

    /// Returns the entry at the end of the text, or `None` if there is none.
    fn finish(
        self,
        cursor: &mut Cursor<'a>,
        alloc: Global,
        here: &Checkpoint<'a>,
    ) -> Result<Option<KdlEntry>, AllocError>
        requires end { here.now.rest ≡ [] }
        requires from { Stands cursor.old.text (state_view self) here.now.rest }
        ensures { IfOk result (λ e. Ended
            (finish cursor.old.text (state_view self.entry)) e) }
    {
        match self {
            State::Pending(word) => {
                let end = word.end.copied();
                let entry = argument(alloc, word)?;
                Ok(Some(ended(entry, cursor, alloc, &end, here)?))
            }
            State::Done(entry, from) => Ok(Some(ended(entry, cursor, alloc, &from, here)?)),
            _ => Ok(None),
        }
    }
}

/// Reads the entry that the text is; the cursor is at its start.
fn read_tokens(cursor: &mut Cursor, alloc: Global) -> Result<KdlEntry, LexFailure>
    requires rest { cursor.old.rest ≡ cursor.old.text }
    ensures { AnswersEntryText cursor.old.text result }
{
    let mut state = State::Start;
    'tokens: while let Some(token) = lexer::next(cursor, alloc)? {
        state = state.take(cursor, alloc, token)?;
    }
    let here = cursor.checkpoint();
    match state.finish(cursor, alloc, &here)? {
        Some(entry) => Ok(entry),
        None => Err(LexFailure::Faulty),
    }
}

impl KdlEntry {
    ghost use Rattle.kdl_entry.specs.Data as data';
    ghost use Rattle.kdl_entry.specs.Entries.{IsEntryText};
    ghost use Rattle.kdl_entry.specs.Laid.{LaidEntryText};
    ghost use Rattle.kdl_entry.specs.Print.{print_entry};
    ghost use Rattle.kdl_entry.specs.Tree.{entry_data};
    ghost use Rattle.kdl_text.specs.Failures.{IsSyntax, TellsOnSyntax};

    /// Parses a text that is exactly one entry, and keeps every byte of its form: line-spaces and slashdashed entries
    /// before it, and line-spaces after it (KDL 2.0.0, Argument, Property). The span of the entry is the whole text.
    /// Returns `Syntax` if the text is not an entry; its error has a diagnostic for each fault, up to the first piece
    /// that no entry can contain, and at least one. Returns `Memory` if an allocation fails.
    ///
    /// ```
    /// let entry = KdlEntry::parse(alloc, "port=(u16)0x1F90")?; // prints the text
    /// let refused = KdlEntry::parse(alloc, "port=8080 9090"); // `Syntax`: these are two entries
    /// ```
    pub fn parse(alloc: Global, text: &str) -> Result<KdlEntry, ParseFailure>
        // The result is what the grammar derives,
        ensures found { IfOk result
            (λ e. IsEntryText (chars text.now) (entry_data (entry_tree e))) }
        // and it derives nothing else.
        ensures only { IfOk result
            (λ e. (x : data'.Entry) → IsEntryText (chars text.now) x
            → x ≡ entry_data (entry_tree e)) }
        // The entry is located in the text, with each place in its class and each span at its piece, and prints the
        // text.
        ensures laid { IfOk result (λ e. LaidEntryText (chars text.now) (entry_tree e)) }
        ensures prints { IfOk result (λ e. print_entry (entry_tree e) ≡ chars text.now) }
        // A refused text is not derived, and the error has the spans of its faults.
        ensures refused { IsSyntax result → (x : data'.Entry) → IsEntryText (chars text.now) x
            → ⊥ }
        ensures told { TellsOnSyntax text.now result }
    {
        match read_tokens(&mut Cursor::new(text, Steps::new()), alloc) {
            Ok(entry) => Ok(entry),
            Err(LexFailure::Faulty) => {
                Err(failure(alloc, text, Whole::Entry, &mut Steps::new()))
            }
            Err(LexFailure::Memory) => Err(ParseFailure::Memory),
        }
    }
}
