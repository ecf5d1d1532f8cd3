//! What the builder does at a token: nodes begin and end, blocks open and close, entries are added.
#![tactic(auto, using(crate::proofs::Rules::steps))]

ghost use Rattle.kdl_parser.specs.Internal.Building.{boxed_type, state_view};
ghost use Rattle.kdl_parser.specs.Internal.Counted.{unsliced};
ghost use Rattle.kdl_parser.specs.Internal.States.{AfterNode, Ready, Settles, TakesIn, node_begun};
ghost use Rattle.kdl_parser.specs.declared.builder.dropping.Dropped.TheVariants.{Nothing};
ghost use Rattle.kdl_syntax.specs.Tokens as token;
ghost use Rattle.kdl_syntax.specs.declared.control.Owner.TheVariants.{Name, Value};
ghost use Rattle.kdl_syntax.specs.declared.control.Phase.TheVariants.{
  Gap,
  InNode,
  Kept,
  Property,
  TypeDone,
};
ghost use Rattle.kdl_syntax.specs.declared.control.Spot.TheVariants.{Fresh, Later, Spaced};
ghost use Rattle.kdl_syntax.specs.declared.control.Word.TheVariants.{MayBeKey, NoKey};
ghost use Rattle.kdl_entry.specs.Places.{between};
ghost use Rattle.kdl_entry.specs.Tree.{identifier_tree};
ghost use Rattle.kdl_text.specs.Spans.{bytes};
ghost use Rattle.kdl_value.specs.Tree.{value_tree, text_of};
ghost use Rattle.std.specs.Prelude.{◌≡◌, Some, None, OnOk, option_map};

use super::content::put;
use super::dropping::Dropped;
use super::growing::Growing;
use super::{Builder, Under, WaitingWord};
use crate::node_parts::ParsedNode;
use kdl_entry::parsing::parts::{Given, TypeParts, empty, entry_from};
use kdl_entry::parsing::texts::{span_between, text_between, token_identifier, token_text};
use kdl_entry::{KdlIdentifier, KdlValue, bare_identifier, sliced_identifier};
use kdl_syntax::{LexFailure, Owner, Phase, Spot, TokenSpan, Word};
use std::alloc::AllocError;
use std::mem;

impl<'a, N: ParsedNode> Builder<'a, N> {
    /// Turns the pending string into an argument.
    #[inline(always)]
    pub(super) fn settle_word(&mut self) -> Result<(), AllocError>
        ensures { Settles self.old result self.new }
    {
        if self.waiting.is_none() {
            return Ok(());
        }
        self.settle_waiting()
    }

    /// Turns the pending string, which is there, into an argument.
    #[inline(always)]
    fn settle_waiting(&mut self) -> Result<(), AllocError>
        ensures { Settles self.old result self.new }
    {
        let Some(word) = self.waiting.take() else {
            return Ok(());
        };
        let alloc = self.alloc;
        let repr = word.repr.to_string(alloc)?;
        let span = span_between(&self.cursor, &word.start, &self.from);
        self.under.entries.make_room()?;
        let given = Given::plain(KdlValue::String(word.value));
        let entry = entry_from(alloc, span, word.leading, given, repr);
        self.under.entries.items.push_reserved(entry);
        Ok(())
    }

    /// Ends the current node, which has no block.
    pub(super) fn end_node(&mut self, at: &TokenSpan<'a>) -> Result<(), LexFailure>
        requires { Ready self.old self.old.from at.now.start }
        ensures ended { TakesIn N.tree (InNode Later) token.newline at.now self.old result self.new }
        ensures after { OnOk result (AfterNode self.new at.now.end) }
    {
        self.settle_word()?;
        self.push_ended(at)?;
        self.from = at.end.copied();
        self.phase = Phase::Gap;
        Ok(())
    }

    /// Ends the current node, which has a block.
    pub(super) fn end_kept(&mut self, at: &TokenSpan<'a>) -> Result<(), LexFailure>
        requires { Ready self.old self.old.from at.now.start }
        ensures ended { TakesIn N.tree Kept token.newline at.now self.old result self.new }
        ensures after { OnOk result (AfterNode self.new at.now.end) }
    {
        self.settle_word()?;
        self.push_kept(at)?;
        self.from = at.end.copied();
        self.phase = Phase::Gap;
        Ok(())
    }

    /// Opens the block of the current node.
    pub(super) fn open_block(&mut self, at: &TokenSpan<'a>) -> Result<(), LexFailure>
        requires { Ready self.old self.old.from at.now.start }
        ensures { TakesIn N.tree (InNode Later) token.opening at.now self.old result self.new }
    {
        self.settle_word()?;
        let before = text_between(&mut self.cursor, self.alloc, &self.from, &at.start)?;
        self.levels.reserve(1)?;
        self.under.entries.fit()?;
        // Field by field this is one copy of the node; `mem::replace` makes three.
        let alloc = self.alloc;
        let mut entries = Growing::new(alloc);
        entries.items = mem::replace(&mut self.under.entries.items, Vec::new(alloc));
        self.levels.push_reserved(Under {
            leading: mem::replace(&mut self.under.leading, empty(alloc)),
            start: self.under.start.copied(),
            ty: self.under.ty.take(),
            name: mem::replace(&mut self.under.name, KdlIdentifier::from(empty(alloc))),
            entries,
            before,
            nodes: mem::replace(&mut self.nodes.items, Vec::new(alloc)),
        });
        self.from = at.end.copied();
        self.phase = Phase::Gap;
        Ok(())
    }

    /// Continues with the node around the block that ends here.
    pub(super) fn close(&mut self, at: &TokenSpan<'a>) -> Result<(), LexFailure>
        requires { Ready self.old self.old.from at.now.start }
        ensures { TakesIn N.tree Gap token.closing at.now self.old result self.new }
    {
        self.nodes.fit()?;
        let Some(under) = self.levels.pop() else {
            return Err(LexFailure::Faulty);
        };
        let inner = mem::replace(&mut self.nodes.items, under.nodes);
        self.forget_word();
        self.under.leading = under.leading;
        self.under.start = under.start;
        self.under.ty = under.ty;
        self.under.name = under.name;
        let entries = under.entries;
        self.under.entries.items = entries.items;
        self.under.before = under.before;
        let block = self.content_up_to(inner, &at.start)?;
        put(&mut self.block, block);
        self.from = at.end.copied();
        self.phase = Phase::Kept;
        Ok(())
    }

    /// Begins a node, whose name is the token. The text before the node and its start are in place.
    #[inline(always)]
    fn begin_node(&mut self, ty: Option<Box<TypeParts>>, name: KdlIdentifier, at: &TokenSpan<'a>)
        requires live { self.old.dropped ≡ Nothing }
        ensures state { state_view N.tree self.new
            ≡ node_begun N.tree self.old (option_map boxed_type ty) (identifier_tree name) at.now.end }
        ensures cursor { self.new.cursor ≡ self.old.cursor }
        ensures unsliced { unsliced self.new ≡ bytes at.now.end.rest }
    {
        self.under.ty = ty;
        self.under.name = name;
        if !self.under.entries.items.is_empty() {
            self.under.entries.items = Vec::new(self.alloc);
        }
        self.forget_word();
        self.from = at.end.copied();
        self.phase = Phase::InNode(Spot::Fresh(Word::NoKey));
    }

    /// Forgets the pending string, if there is one.
    #[inline(always)]
    fn forget_word(&mut self)
        ensures { self.new ≡ record self.old { waiting = None } }
    {
        if self.waiting.is_some() {
            self.clear_waiting();
        }
    }

    /// Drops the pending string. It is rarely there, so this stays out of `forget_word`, which is inlined.
    #[inline(never)]
    fn clear_waiting(&mut self)
        ensures { self.new ≡ record self.old { waiting = None } }
    {
        put(&mut self.waiting, None);
    }

    /// Continues after an entry, whose value is the token.
    #[inline(always)]
    fn end_entry(&mut self, at: &TokenSpan<'a>)
        ensures { self.new ≡ record self.old {
          waiting = None;
          from = at.now.end;
          phase = InNode (Fresh NoKey);
        } }
    {
        self.forget_word();
        self.from = at.end.copied();
        self.phase = Phase::InNode(Spot::Fresh(Word::NoKey));
    }

    /// Keeps a string in a node, which may be a key, as the pending one.
    pub(super) fn wait(&mut self, value: String, at: &TokenSpan<'a>) -> Result<(), LexFailure>
        requires { Ready self.old self.old.from at.now.start }
        ensures { TakesIn N.tree (InNode (Spaced NoKey)) (token.string (text_of value)) at.now self.old result
            self.new }
    {
        self.settle_word()?;
        // There is a space before it at least, so here and before an argument `text_between` would look in vain whether
        // there is any text.
        let place = self.cursor.slice_between(&self.from, &at.start);
        let leading = place.to_string(self.alloc)?;
        let word = WaitingWord {
            leading,
            start: at.start.copied(),
            value,
            repr: self.cursor.slice_between(&at.start, &at.end),
        };
        put(&mut self.waiting, Some(word));
        self.from = at.end.copied();
        self.phase = Phase::InNode(Spot::Fresh(Word::MayBeKey));
        Ok(())
    }

    /// Begins a property at its `=`. Its key is the pending string; without one the key is slashdashed.
    pub(super) fn open_property(&mut self, at: &TokenSpan<'a>) -> Result<(), LexFailure>
        requires { Ready self.old self.old.from at.now.start }
        ensures { TakesIn N.tree (InNode (Fresh MayBeKey)) token.equals at.now self.old result self.new }
    {
        let Some(word) = self.waiting.take() else {
            put(
                &mut self.dropped,
                Dropped::part(self.alloc, Phase::Property),
            );
            return Ok(());
        };
        let before = text_between(&mut self.cursor, self.alloc, &self.from, &at.start)?;
        let WaitingWord {
            leading,
            start: word_start,
            value,
            repr,
        } = word;
        let span = span_between(&self.cursor, &word_start, &self.from);
        let name = sliced_identifier(self.alloc, value, &repr, span)?;
        self.parts.open(leading, &word_start, &at.end);
        self.parts.name = name;
        self.parts.before = before;
        self.phase = Phase::Property;
        Ok(())
    }

    /// Begins the type of a node at its `(`.
    pub(super) fn open_name(&mut self, at: &TokenSpan<'a>) -> Result<(), LexFailure>
        requires { Ready self.old self.old.from at.now.start }
        ensures { TakesIn N.tree Gap token.left at.now self.old result self.new }
    {
        let leading = text_between(&mut self.cursor, self.alloc, &self.from, &at.start)?;
        self.parts.open(leading, &at.start, &at.end);
        self.phase = Phase::TypeOpen(Owner::Name);
        Ok(())
    }

    /// Begins the type of a value at its `(`.
    pub(super) fn open_value(&mut self, at: &TokenSpan<'a>) -> Result<(), LexFailure>
        requires { Ready self.old self.old.from at.now.start }
        ensures { TakesIn N.tree (InNode (Spaced NoKey)) token.left at.now self.old result self.new }
    {
        self.settle_word()?;
        let leading = text_between(&mut self.cursor, self.alloc, &self.from, &at.start)?;
        self.parts.open(leading, &at.start, &at.end);
        self.phase = Phase::TypeOpen(Owner::Value);
        Ok(())
    }

    /// Adds a value that is an argument.
    pub(super) fn add_argument(
        &mut self,
        value: KdlValue,
        at: &TokenSpan<'a>,
    ) -> Result<(), LexFailure>
        requires { Ready self.old self.old.from at.now.start }
        ensures { TakesIn N.tree (InNode (Spaced NoKey)) (token.value (value_tree value)) at.now self.old result
            self.new }
    {
        self.settle_word()?;
        let alloc = self.alloc;
        let leading = self
            .cursor
            .slice_between(&self.from, &at.start)
            .to_string(alloc)?;
        let repr = token_text(&mut self.cursor, self.alloc, at)?;
        let span = span_between(&self.cursor, &at.start, &at.end);
        self.under.entries.make_room()?;
        let entry = entry_from(alloc, span, leading, Given::plain(value), repr);
        self.under.entries.items.push_reserved(entry);
        self.end_entry(at);
        Ok(())
    }

    /// Adds a value that has a type, and maybe a key.
    pub(super) fn add_typed(
        &mut self,
        value: KdlValue,
        at: &TokenSpan<'a>,
    ) -> Result<(), LexFailure>
        requires { Ready self.old self.old.parts.from at.now.start }
        ensures { TakesIn N.tree (TypeDone Value) (token.value (value_tree value)) at.now self.old result self.new }
    {
        let ty = self.parts.type_parts(&mut self.cursor, &at.start)?;
        let repr = token_text(&mut self.cursor, self.alloc, at)?;
        self.under.entries.make_room()?;
        let key = self.parts.key.take();
        let given = Given {
            key,
            ty: Some(ty),
            value,
        };
        let span = span_between(&self.cursor, &self.parts.start, &at.end);
        let leading = mem::replace(&mut self.parts.leading, empty(self.alloc));
        let entry = entry_from(self.alloc, span, leading, given, repr);
        self.under.entries.items.push_reserved(entry);
        self.end_entry(at);
        Ok(())
    }

    /// Adds a value that has a key and no type.
    pub(super) fn add_keyed(
        &mut self,
        value: KdlValue,
        at: &TokenSpan<'a>,
    ) -> Result<(), LexFailure>
        requires { Ready self.old self.old.parts.from at.now.start }
        ensures { TakesIn N.tree Property (token.value (value_tree value)) at.now self.old result self.new }
    {
        let key = self.parts.key_parts(&mut self.cursor, &at.start)?;
        let repr = token_text(&mut self.cursor, self.alloc, at)?;
        self.under.entries.make_room()?;
        let given = Given {
            key: Some(key),
            ty: None,
            value,
        };
        let span = span_between(&self.cursor, &self.parts.start, &at.end);
        let leading = mem::replace(&mut self.parts.leading, empty(self.alloc));
        let entry = entry_from(self.alloc, span, leading, given, repr);
        self.under.entries.items.push_reserved(entry);
        self.end_entry(at);
        Ok(())
    }

    /// Takes a string that is a node's name.
    pub(super) fn name_node(&mut self, name: String, at: &TokenSpan<'a>) -> Result<(), LexFailure>
        requires { Ready self.old self.old.from at.now.start }
        ensures { TakesIn N.tree Gap (token.string (text_of name)) at.now self.old result self.new }
    {
        self.under.leading = text_between(&mut self.cursor, self.alloc, &self.from, &at.start)?;
        self.under.start = at.start.copied();
        let name = token_identifier(&mut self.cursor, self.alloc, name, at)?;
        self.begin_node(None, name, at);
        Ok(())
    }

    /// Takes a bare string that is a node's name.
    pub(super) fn name_bare(&mut self, at: &TokenSpan<'a>) -> Result<(), LexFailure>
        requires { Ready self.old self.old.from at.now.start }
        ensures { TakesIn N.tree Gap (token.string (between at.now.start.rest at.now.end.rest)) at.now self.old result
            self.new }
    {
        self.under.leading = text_between(&mut self.cursor, self.alloc, &self.from, &at.start)?;
        self.under.start = at.start.copied();
        let piece = self.cursor.slice_between(&at.start, &at.end);
        let span = span_between(&self.cursor, &at.start, &at.end);
        let name = bare_identifier(self.alloc, &piece, span)?;
        self.begin_node(None, name, at);
        Ok(())
    }

    /// Takes a string that is a node's name and has a type.
    pub(super) fn name_typed(&mut self, name: String, at: &TokenSpan<'a>) -> Result<(), LexFailure>
        requires { Ready self.old self.old.parts.from at.now.start }
        ensures { TakesIn N.tree (TypeDone Name) (token.string (text_of name)) at.now self.old result self.new }
    {
        let ty = self.parts.type_parts(&mut self.cursor, &at.start)?;
        let name = token_identifier(&mut self.cursor, self.alloc, name, at)?;
        let ty = Box::new(self.alloc, ty)?;
        self.under.leading = mem::replace(&mut self.parts.leading, empty(self.alloc));
        self.under.start = self.parts.start.copied();
        self.begin_node(Some(ty), name, at);
        Ok(())
    }
}
