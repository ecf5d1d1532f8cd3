//! The builder: a document being read, token by token.
#![tactic(auto, using(crate::proofs::Rules::builder))]

ghost use Rattle.kdl_entry.specs.Internal.Counted.{Within};
ghost use Rattle.kdl_grammar.specs.Internal.Machine.{initial};
ghost use Rattle.kdl_syntax.specs.Internal.Handed.{kind_view};
ghost use Rattle.kdl_syntax.specs.Tokens.{space, string};
ghost use Rattle.kdl_parser.specs.Internal.Building.{state_view, Placed};
ghost use Rattle.kdl_parser.specs.Internal.Counted.{unsliced};
ghost use Rattle.kdl_parser.specs.Internal.Events.{Acts, StandsAt, WithinIf, is_building, is_of_parts, mark_step, string_step, value_step};
ghost use Rattle.kdl_parser.specs.Internal.States.{document_now, document_of_nodes, Ends, Ready, TakesToken, TakesTurn};
ghost use Rattle.kdl_text.specs.Spans.{bytes};
ghost use Rattle.kdl_value.specs.Tree.{text_of, value_tree};
ghost use Rattle.std.specs.Prelude.{◌≡◌, ◌++◌, [], true};

mod content;
mod dropping;
mod growing;
mod steps;

use self::content::{no_content, nothing_at};
use self::dropping::Dropped;
use self::growing::Growing;
use crate::node_parts::{DocumentParts, ParsedNode};
use kdl_entry::parsing::parts::{Parts, TypeParts, empty};
use kdl_entry::{KdlEntry, KdlIdentifier, KdlValue};
use kdl_syntax::{Event, LexFailure, Owner, Phase, TokenKind, TokenSpan};
use kdl_text::cursor::{Checkpoint, Cursor, Piece};
use std::alloc::Global;
use std::mem;

/// A node being read.
#[derive(Drop)]
struct Under<'a, N> {
    leading: String,
    start: Checkpoint<'a>,
    /// Its type, on the heap: few nodes have one, and a node is moved when its block opens and when it closes.
    ty: Option<Box<TypeParts>>,
    name: KdlIdentifier,
    entries: Growing<KdlEntry>,
    /// The text before its block.
    before: String,
    /// The nodes before it, while its block is open.
    nodes: Vec<N>,
}

/// A pending string in a node: a key if `=` follows, and else an argument.
#[derive(Drop)]
struct WaitingWord<'a> {
    leading: String,
    start: Checkpoint<'a>,
    value: String,
    /// Its spelling, which is copied if it differs from the string.
    repr: Piece<'a>,
}

/// A document being read. It holds nothing of what is slashdashed.
#[derive(Drop)]
pub(crate) struct Builder<'a, N> {
    pub(crate) alloc: Global,
    /// Where the builder is in the text, of which each place and each spelling that the document keeps is sliced once.
    pub(crate) cursor: Cursor<'a>,
    /// The phase of the grammar, outside of what is slashdashed.
    phase: Phase,
    /// What is slashdashed and being read.
    dropped: Dropped,
    /// The type of the next name or value, or the key of the next value.
    parts: Parts<'a>,
    /// A string that may be a key.
    waiting: Option<WaitingWord<'a>>,
    /// The current node; in no node, nothing of it is used.
    under: Under<'a, N>,
    /// Its block.
    block: DocumentParts<N>,
    /// The nodes before it.
    nodes: Growing<N>,
    /// The nodes whose blocks are open, the innermost last.
    levels: Vec<Under<'a, N>>,
    /// The start of the current place.
    from: Checkpoint<'a>,
}

impl<'a, N: ParsedNode> Builder<'a, N> {
    /// Creates a builder at the start of a text, or after its U+FEFF.
    pub(crate) fn new(cursor: Cursor<'a>, alloc: Global) -> Self
        ensures state { state_view N.tree result ≡ initial cursor.entry.rest }
        ensures unsliced { unsliced result ≡ bytes cursor.entry.rest }
        ensures cursor { result.cursor ≡ cursor.entry }
    {
        let start = cursor.checkpoint();
        Builder {
            alloc,
            cursor,
            phase: Phase::Gap,
            dropped: Dropped::Nothing,
            parts: Parts::new(alloc, &start),
            waiting: None,
            under: Under {
                leading: empty(alloc),
                start: start.copied(),
                ty: None,
                name: KdlIdentifier::from(empty(alloc)),
                entries: Growing::new(alloc),
                before: empty(alloc),
                nodes: Vec::new(alloc),
            },
            block: no_content(alloc),
            nodes: Growing::new(alloc),
            levels: Vec::new(alloc),
            from: start,
        }
    }

    /// Takes a value, and does its event.
    #[inline(always)]
    fn take_value(
        &mut self,
        event: Event,
        value: KdlValue,
        at: &TokenSpan<'a>,
    ) -> Result<(), LexFailure>
        requires ready { Ready self.old self.old.from at.now.start }
        requires parts { WithinIf (is_of_parts event) self.old.cursor self.old.parts.from at.now.start }
        ensures { Acts N.tree event (value_step N.tree self.old event (value_tree value) at.now) self.old
            result self.new }
    {
        match event {
            Event::Argument => self.add_argument(value, at),
            Event::TypedValue => self.add_typed(value, at),
            Event::KeyedValue => self.add_keyed(value, at),
            _ => Err(LexFailure::Faulty),
        }
    }

    /// Takes a string, and does its event.
    #[inline(always)]
    fn take_string(
        &mut self,
        event: Event,
        text: String,
        at: &TokenSpan<'a>,
    ) -> Result<(), LexFailure>
        requires ready { Ready self.old self.old.from at.now.start }
        requires parts { WithinIf (is_of_parts event) self.old.cursor self.old.parts.from at.now.start }
        ensures { Acts N.tree event (string_step N.tree self.old event (text_of text) at.now) self.old
            result self.new }
    {
        match event {
            Event::Name => self.name_node(text, at),
            Event::TypedName => self.name_typed(text, at),
            Event::TypeName(owner) => {
                self.parts.take_name(&mut self.cursor, text, at)?;
                self.phase = Phase::TypeName(owner);
                Ok(())
            }
            Event::Word => self.wait(text, at),
            Event::TypedValue => self.add_typed(KdlValue::String(text), at),
            Event::KeyedValue => self.add_keyed(KdlValue::String(text), at),
            _ => Err(LexFailure::Faulty),
        }
    }

    /// Takes a token that is neither a string nor a value, and does its event.
    #[inline(always)]
    fn take_mark(&mut self, event: Event, at: &TokenSpan<'a>) -> Result<(), LexFailure>
        requires ready { Ready self.old self.old.from at.now.start }
        requires parts { WithinIf (is_of_parts event) self.old.cursor self.old.parts.from at.now.start }
        ensures { Acts N.tree event (mark_step N.tree self.old event at.now) self.old result self.new }
    {
        match event {
            Event::Skip(phase) => {
                self.phase = phase;
                Ok(())
            }
            Event::NameType => self.open_name(at),
            Event::ValueType => self.open_value(at),
            Event::KeyedType => {
                self.parts.open_typed(&mut self.cursor, at)?;
                self.phase = Phase::TypeOpen(Owner::Value);
                Ok(())
            }
            Event::TypeEnd(owner) => {
                self.parts.close(&mut self.cursor, at)?;
                self.phase = Phase::TypeDone(owner);
                Ok(())
            }
            Event::Equals => self.open_property(at),
            Event::EntrySlashdash => {
                self.settle_word()?;
                self.phase = Phase::EntrySlashdash;
                Ok(())
            }
            Event::NodeEnd => self.end_node(at),
            Event::KeptEnd => self.end_kept(at),
            Event::Opening(_) => self.open_block(at),
            Event::GapClosing => self.close(at),
            Event::NodeClosing => {
                self.end_node(&nothing_at(&at.start))?;
                self.close(at)
            }
            Event::KeptClosing => {
                self.end_kept(&nothing_at(&at.start))?;
                self.close(at)
            }
            _ => Err(LexFailure::Faulty),
        }
    }

    /// Whether nothing slashdashed is being read, and none begins at the next token.
    #[inline(always)]
    fn is_building(&self) -> bool
        ensures { result ≡ is_building self.now.dropped self.now.phase }
    {
        match self.dropped {
            Dropped::Nothing => !matches!(
                self.phase,
                Phase::NodeSlashdash
                    | Phase::EntrySlashdash
                    | Phase::BlockSlashdash
                    | Phase::KeptSlashdash
            ),
            _ => false,
        }
    }

    /// Takes a token outside of what is slashdashed.
    #[inline(always)]
    fn take_live(&mut self, kind: TokenKind, at: &TokenSpan<'a>) -> Result<(), LexFailure>
        requires { StandsAt true N.tree self.old at.now.start }
        ensures { TakesToken N.tree self.old (kind_view kind) at.now result self.new }
    {
        let Some(event) = self.phase.event(&kind) else {
            return Err(LexFailure::Faulty);
        };
        match kind {
            TokenKind::String(text) => self.take_string(event, text, at),
            TokenKind::Value(value) => self.take_value(event, value, at),
            _ => self.take_mark(event, at),
        }
    }

    /// Takes a bare string outside of what is slashdashed.
    #[inline(always)]
    fn take_bare(&mut self, word: &Piece<'a>, at: &TokenSpan<'a>) -> Result<(), LexFailure>
        requires here { StandsAt true N.tree self.old at.now.start }
        requires reads { at.now.start.rest ≡ word.now ++ at.now.end.rest }
        ensures { TakesToken N.tree self.old (string word.now) at.now result self.new }
    {
        if let Phase::Gap = self.phase {
            return self.name_bare(at);
        }
        let text = word.to_string(self.alloc)?;
        self.take_live(TokenKind::String(text), at)
    }

    /// Takes a run of spaces outside of what is slashdashed.
    #[inline(always)]
    fn take_blank(&mut self, at: &TokenSpan<'a>) -> Result<(), LexFailure>
        requires { is_building self.old.dropped self.old.phase ≡ true }
        ensures { TakesToken N.tree self.old space at.now result self.new }
    {
        self.phase = self.phase.spaced();
        Ok(())
    }

    /// Takes the token of this kind at the place. Fails if the token may not be here, or if an allocation fails; the
    /// builder is then in an unspecified state.
    #[inline(always)]
    pub(crate) fn take(&mut self, kind: TokenKind, at: &TokenSpan<'a>) -> Result<(), LexFailure>
        requires placed { Placed self.old.cursor.text (state_view N.tree self.old) at.now.start.rest }
        ensures { TakesTurn N.tree self.old (kind_view kind) at.now result self.new }
    {
        let _ = self.cursor.look();
        if self.is_building() {
            self.take_live(kind, at)
        } else {
            self.take_dropped(kind, at)
        }
    }

    /// Takes the token at the place, which is the bare string. It does what `take` does at such a token.
    #[inline(always)]
    pub(crate) fn take_word(
        &mut self,
        word: &Piece<'a>,
        at: &TokenSpan<'a>,
    ) -> Result<(), LexFailure>
        requires placed { Placed self.old.cursor.text (state_view N.tree self.old) at.now.start.rest }
        requires reads { at.now.start.rest ≡ word.now ++ at.now.end.rest }
        ensures { TakesTurn N.tree self.old (string word.now) at.now result self.new }
    {
        let _ = self.cursor.look();
        if self.is_building() {
            self.take_bare(word, at)
        } else {
            self.drop_word(word, at)
        }
    }

    /// Takes the token at the place, which is a run of spaces. It does what `take` does at such a token.
    #[inline(always)]
    pub(crate) fn take_space(&mut self, at: &TokenSpan<'a>) -> Result<(), LexFailure>
        ensures { TakesTurn N.tree self.old space at.now result self.new }
    {
        let _ = self.cursor.look();
        if self.is_building() {
            self.take_blank(at)
        } else {
            self.drop_space(at)
        }
    }

    /// Returns the document at the end of the text, which is here. Fails if something open is not closed. The builder
    /// can't be used afterwards.
    pub(crate) fn finish(&mut self, here: &Checkpoint<'a>) -> Result<DocumentParts<N>, LexFailure>
        requires end { here.now.rest ≡ [] }
        requires from { Within self.old.cursor self.old.from here.now }
        ensures { Ends N.tree (document_now N.tree self.old) (unsliced self.old) self.old result self.new }
    {
        if let Dropped::Nothing = self.dropped {
            return self.finish_at(here);
        }
        // At the end of the text it is over where it is over before a `}`.
        if self.leave_dropped(&TokenKind::Closing)? {
            return self.finish_at(here);
        }
        Err(LexFailure::Faulty)
    }

    /// Returns the document at the end of the text, outside of what is slashdashed.
    fn finish_at(&mut self, here: &Checkpoint<'a>) -> Result<DocumentParts<N>, LexFailure>
        requires end { here.now.rest ≡ [] }
        requires ready { Ready self.old self.old.from here.now }
        ensures { Ends N.tree (document_now N.tree self.old) (unsliced self.old) self.old result self.new }
    {
        match self.phase {
            Phase::Gap => self.finish_nodes(here),
            Phase::InNode(_) => {
                self.end_node(&nothing_at(here))?;
                self.finish_nodes(here)
            }
            Phase::Kept => {
                self.end_kept(&nothing_at(here))?;
                self.finish_nodes(here)
            }
            _ => Err(LexFailure::Faulty),
        }
    }

    /// Returns the document of the nodes, if no block is open.
    fn finish_nodes(&mut self, here: &Checkpoint<'a>) -> Result<DocumentParts<N>, LexFailure>
        requires end { here.now.rest ≡ [] }
        requires from { Within self.old.cursor self.old.from here.now }
        ensures { Ends N.tree (document_of_nodes N.tree self.old) (bytes self.old.from.rest) self.old result self.new }
    {
        if !self.levels.is_empty() {
            return Err(LexFailure::Faulty);
        }
        self.nodes.fit()?;
        let nodes = mem::replace(&mut self.nodes.items, Vec::new(self.alloc));
        let document = self.content_up_to(nodes, here)?;
        Ok(document)
    }
}
