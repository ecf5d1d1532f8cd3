//! Layout of nodes.

ghost use Rattle.kdl.specs.Change.{with_nodes};
ghost use Rattle.kdl.specs.Iterators.{child_nodes, nodes_in};
ghost use Rattle.kdl.specs.Internal.Spacing.{BlockIsSpaced, NodeIsSpaced, NodesAreSpaced, IsSpacedBut, PassesAt, StayAs, StaysAs, braces_of, enclosed, filled_block, lined, with_texts};
ghost use Rattle.kdl.specs.Layout.{IndentsBySpaces, NodeSpaced, node_bare};
ghost use Rattle.kdl.specs.LaysOut.{FormatsNode, KeepsNode, NodeKeepsComments, RereadsNode};
ghost use Rattle.kdl.specs.Tree.{document_tree, node_tree};
ghost use Rattle.kdl.specs.declared.document.KdlDocument.{out-KdlDocument};
ghost use Rattle.kdl.specs.declared.node.KdlNode.{out-KdlNode};
ghost use Rattle.kdl_layout.specs.Blank.{at_start};
ghost use Rattle.kdl_layout.specs.Config.{defaults, indentation, keeping, nothing, settings, without_comments};
ghost use Rattle.kdl_layout.specs.Formatted.{bare_node, or_empty};
ghost use Rattle.kdl_layout.specs.OneLine.{entry_on_line, line_on_line, maybe_on_line, name_on_line, node_on_line};
ghost use Rattle.kdl_grammar.specs.Tree.{Node, children_of};
ghost use Rattle.kdl_entry.specs.Tree.{entry_tree, identifier_tree};
ghost use Rattle.kdl_parts.specs.Formats.{node_texts};
ghost use Rattle.std.specs.List.{list_all};
ghost use Rattle.std.specs.Prelude.{◌≡◌, ◌↔◌, ◌&&◌, ◌==◌, ◌+◌, ◌<◌, IfOk, IsTrue, List, MatchOption, OnOk, false, length, map, option_map};
ghost use Rattle.std.specs.Str.{chars};

use crate::document::KdlDocument;
use crate::ends::last_place;
use crate::layout::{Around, lay_out_nodes, set_formats};
use crate::node::KdlNode;
use kdl_entry::{KdlEntry, KdlIdentifier};
use kdl_layout::kept::{kept_type_texts, put_type_texts};
use kdl_layout::layout::{after_line, indentation, lay_out_entries, lay_out_line};
use kdl_layout::names::{name_spelling, name_spelling_if, respell, respell_type};
use kdl_layout::one_line::{entries_on_line, line_on_line, maybe_on_line, name_on_line};
use kdl_layout::{Before, FormatConfig, Last, Layout};
use kdl_parts::KdlNodeFormat;
use std::alloc::AllocError;
use std::mem;

impl KdlNode {
    /// Formats the node and all nodes below it: the node on its own line at level 0, four spaces for each level below
    /// it, one space between the parts of a node. The data of the node is unchanged.
    ///
    /// Comments and slashdashed pieces are kept before or after the node or one below it, between entries, and before a
    /// block or a terminator. They are removed inside a type or after it, around `=`, and after the value of an entry
    /// that `KdlEntry::parse` read. Spellings are removed too, but an entry that is flagged to keep its form
    /// (`KdlEntry::keep_format`) keeps the spelling of its value and the text before it.
    ///
    /// If no entry is flagged, the node prints a document of that one node, and a second call changes nothing.
    ///
    /// If an allocation fails, returns an error. The data of the node is then unchanged, and some of it may be
    /// formatted. If each piece of the text that it printed was read as that piece, as after `parse`, and if each entry
    /// that keeps its form reads back in it, that is still so.
    ///
    /// ```
    /// let mut node = KdlNode::parse(alloc, "\"a\"  /* b */ 0x10 // c")?;
    /// node.autoformat()?; // prints `a /* b */ 16 // c` and a newline
    /// ```
    pub fn autoformat(&mut self) -> Result<(), AllocError>
        ensures keeps { KeepsNode defaults self.old self.new result }
        ensures rereads { RereadsNode defaults self.old self.new result }
        ensures formats { FormatsNode defaults self.old self.new result }
    {
        let config = FormatConfig::builder().build();
        self.autoformat_config(&config)
    }

    /// Formats the node like `autoformat`, and removes its comments and slashdashed pieces. What an error leaves is the
    /// same.
    ///
    /// ```
    /// let mut node = KdlNode::parse(alloc, "\"a\"   0x10 { /* b */ b; }")?;
    /// node.autoformat_no_comments()?; // prints `a 16 {`, `    b` and `}`, each with a newline
    /// ```
    pub fn autoformat_no_comments(&mut self) -> Result<(), AllocError>
        ensures keeps { KeepsNode without_comments self.old self.new result }
        ensures rereads { RereadsNode without_comments self.old self.new result }
        ensures formats { FormatsNode without_comments self.old self.new result }
    {
        let config = FormatConfig::builder().no_comments(true).build();
        self.autoformat_config(&config)
    }

    /// Formats the node and all nodes below it as the configuration says: from its level on, with its indent for each
    /// level, with or without comments, and with all entries flagged or not.
    ///
    /// Returns an error if an allocation fails, or if the level of a child would exceed `usize::MAX`. It leaves what an
    /// error of `autoformat` does, but the text need not read back if the indent is not spaces.
    ///
    /// ```
    /// let config = FormatConfig::builder().indent("\t").indent_level(1).build();
    /// let mut node = KdlNode::parse(alloc, "a {b}")?;
    /// node.autoformat_config(&config)?; // prints `a {` after one tab, `b` after two, `}` after one
    /// ```
    pub fn autoformat_config(&mut self, config: &FormatConfig) -> Result<(), AllocError>
        ensures keeps { KeepsNode (settings config.now) self.old self.new result }
        ensures rereads { IndentsBySpaces (settings config.now)
            → RereadsNode (settings config.now) self.old self.new result }
        ensures formats { FormatsNode (settings config.now) self.old self.new result }
    {
        let layout = Layout {
            config: *config,
            blank_lines: 0,
            keep_spelling: false,
            keep_inner_comments: false,
            keep_one_line: false,
            compact_empty: false,
        };
        self.autoformat_layout(&layout)
    }

    /// Formats the node like `autoformat_config`, and keeps blank lines, spellings and blocks on one line as the layout
    /// says, like `KdlDocument::autoformat_layout`. There are no blank lines before the node.
    ///
    /// Returns an error as `autoformat_config` does, or if a number of newlines would exceed `usize::MAX`. What it leaves
    /// is the same.
    ///
    /// ```
    /// let layout = Layout { blank_lines: 1, keep_one_line: true, ..Layout::new() };
    /// let mut node = KdlNode::parse(alloc, "a {\n\nb\n\nc\n\n}")?;
    /// node.autoformat_layout(&layout)?; // prints `a {`, `b`, an empty line, `c` and `}`, each on its own line
    /// let layout = Layout { keep_spelling: true, ..Layout::new() };
    /// let mut node = KdlNode::parse(alloc, "\"a\"   0xff0000")?;
    /// node.autoformat_layout(&layout)?; // prints `"a" 0xff0000`
    /// ```
    pub fn autoformat_layout(&mut self, layout: &Layout) -> Result<(), AllocError>
        ensures keeps { KeepsNode (settings layout.now.config) self.old self.new result }
        ensures rereads { IndentsBySpaces (settings layout.now.config)
            → RereadsNode (settings layout.now.config) self.old self.new result }
        ensures comments { NodeKeepsComments layout.now self.old self.new result }
        ensures formatted { OnOk result (NodeSpaced layout.now self.old self.new) }
        ensures unspaced { layout.now.blank_lines ≡ 0
            → keeping layout.now ≡ nothing → layout.now.keep_one_line ≡ false
            → layout.now.compact_empty ≡ false
            → FormatsNode (settings layout.now.config) self.old self.new result }
    {
        self.lay_out_alone(layout)
    }

    /// Lays out the node at the configuration's level, and all below it. Nothing comes before it.
    fn lay_out_alone(&mut self, layout: &Layout) -> Result<(), AllocError>
        ensures kept { node_bare self.new ≡ node_bare self.old }
        ensures stays { IndentsBySpaces (settings layout.now.config)
            → StaysAs (settings layout.now.config) (node_tree self.old) (node_tree self.new) }
        ensures spaced { OnOk result (NodeIsSpaced layout.now layout.now.config.indent_level
            at_start (node_tree self.old) (node_tree self.new)) }
    {
        let alloc = *self.entries.allocator();
        let level = layout.config.indent_level;
        let indentation = indentation(alloc, &layout.config, level)?;
        self.lay_out(layout, level, indentation.as_str())
    }

    /// Lays out the node at a level, after the indentation of that level, and all below it. Nothing comes before it.
    fn lay_out(&mut self, layout: &Layout, level: usize, before: &str) -> Result<(), AllocError>
        requires { chars before.now ≡ indentation (settings layout.now.config) level }
        ensures kept { node_bare self.new ≡ node_bare self.old }
        ensures stays { IndentsBySpaces (settings layout.now.config)
            → StaysAs (settings layout.now.config) (node_tree self.old) (node_tree self.new) }
        ensures spaced { OnOk result
            (NodeIsSpaced layout.now level at_start (node_tree self.old) (node_tree self.new)) }
    {
        let next = Before::Nothing(Last::Other);
        let (_, first, around) = self.lay_out_own(layout, level, before, next)?;
        lay_out_below(&mut self.children, layout, level, first)?;
        self.set_around(around);
        Ok(())
    }

    /// Lays out the node at a level, after what comes before it and the indentation of that level, but not its block.
    /// Returns what comes before the node after it, and before the first node in its block, and the texts around these,
    /// for `set_around`.
    pub(crate) fn lay_out_own(
        &mut self,
        layout: &Layout,
        level: usize,
        before: &str,
        next: Before,
    ) -> Result<(Before, Before, Option<Around>), AllocError>
        ensures kept { node_bare self.new ≡ node_bare self.old }
        ensures block { child_nodes self.new ≡ child_nodes self.old }
        ensures stays { IndentsBySpaces (settings layout.now.config)
            → chars before.now ≡ indentation (settings layout.now.config) level
            → StaysAs (settings layout.now.config) (node_tree self.old) (node_tree self.new) }
        ensures spaced { IfOk result (λ (following, first, around).
            chars before.now ≡ indentation (settings layout.now.config) level
            → PassesAt layout.now (node_tree self.old) following
            × IsSpacedBut layout.now level next (node_tree self.old) first around
            (map node_tree (child_nodes self.old)) self.new) }
    {
        let alloc = *self.entries.allocator();
        let type_spelling = name_spelling_if(alloc, layout, self.ty.as_ref())?;
        let name_spelling = name_spelling(alloc, layout, &self.name)?;
        let last = last_place(&self.children);
        let (first, around) = block_around(&self.children, layout, level, before)?;
        let has_type = self.ty.is_some();
        let types = kept_type_texts(alloc, layout, has_type, &self.format)?;
        let following = lay_out_line(&mut self.format, alloc, layout, before, last, next)?;
        put_type_texts(&mut self.format, types);
        respell_type(&mut self.ty, type_spelling);
        respell(&mut self.name, name_spelling);
        lay_out_entries(&mut self.entries, layout)?;
        Ok((following, first, around))
    }

    /// Sets the texts around the nodes of the node's block, if there is one.
    pub(crate) fn set_around(&mut self, around: Option<Around>)
        ensures { node_tree self.new ≡
            enclosed around self.old (map node_tree (child_nodes self.old)) }
    {
        set_around(&mut self.children, around);
    }

    /// Returns whether the node, which so many nodes follow, can be printed on one line, without comments and a block.
    pub(crate) fn is_on_line(&self, following: usize) -> bool
        ensures { result ≡ node_on_line (following == 0) (node_tree self.now) }
    {
        if self.children.is_some() {
            return false;
        }
        is_line(&self.ty, &self.name, &self.entries, &self.format, following)
    }

    /// Returns what comes before whatever follows the node. That is not laid out.
    pub(crate) fn before_next(&self, layout: &Layout) -> Result<Before, AllocError>
        ensures { IfOk result (λ b. PassesAt layout.now (node_tree self.now) b) }
    {
        after_line(&self.format, *self.entries.allocator(), layout)
    }

    /// Replaces the nodes in the node's block and returns the old ones. Without a block, returns the given nodes.
    pub(crate) fn exchange_nodes(&mut self, nodes: Vec<KdlNode>) -> Vec<KdlNode>
        ensures had { MatchOption (out-KdlNode self.old).children (result ≡ nodes)
            (λ d. result ≡ (out-KdlDocument d).nodes) }
        ensures has { out-KdlNode self.new ≡ record (out-KdlNode self.old)
            { children = option_map (λ d. with_nodes d nodes) (out-KdlNode self.old).children } }
    {
        match &mut self.children {
            Some(children) => mem::replace(children.nodes_mut(), nodes),
            None => nodes,
        }
    }

    /// Whether there are nodes in its block.
    pub(crate) fn has_nodes(&self) -> bool
        ensures { IsTrue result ↔ (0 < length (child_nodes self.now)) }
    {
        match &self.children {
            Some(children) => !children.nodes().is_empty(),
            None => false,
        }
    }
}

/// Returns whether the parts of a node without a block, which so many nodes follow, can be printed on one line, without
/// comments.
fn is_line(
    ty: &Option<KdlIdentifier>,
    name: &KdlIdentifier,
    entries: &[KdlEntry],
    format: &Option<KdlNodeFormat>,
    following: usize,
) -> bool
    ensures { result ≡ (maybe_on_line (option_map identifier_tree ty.now)
        && name_on_line (identifier_tree name.now)
        && list_all (λ e. entry_on_line (entry_tree e)) entries.now
        && line_on_line (following == 0) (or_empty (node_texts format.now))) }
{
    maybe_on_line(ty.as_ref())
        && name_on_line(name)
        && entries_on_line(entries)
        && line_on_line(format, following)
}

/// Sets the texts around the nodes of a block, if there is one.
fn set_around(children: &mut Option<KdlDocument>, around: Option<Around>)
    ensures { children_of (option_map document_tree children.new) ≡ with_texts (braces_of around)
        (filled_block children.old (lined around (map node_tree (nodes_in children.old)))) }
{
    let Some(children) = children else {
        return;
    };
    match around {
        Some(Around { braces, line }) => {
            set_formats(children.nodes_mut(), line);
            children.set_format(braces);
        }
        None => children.clear_format(),
    }
}

/// Returns what comes before the first node in the block of a node at a level, and the texts around the nodes in it.
fn block_around(
    children: &Option<KdlDocument>,
    layout: &Layout,
    level: usize,
    before: &str,
) -> Result<(Before, Option<Around>), AllocError>
    ensures { IfOk result (λ (first, around).
        chars before.now ≡ indentation (settings layout.now.config) level
        → BlockIsSpaced layout.now level children.now first around) }
{
    match children {
        Some(children) => {
            let (around, first) = children.around(layout, level, before)?;
            Ok((first, Some(around)))
        }
        None => Ok((Before::Nothing(Last::Other), None)),
    }
}

/// Lays out the nodes in the block of a node at a level, the first one after what comes before it.
fn lay_out_below(
    children: &mut Option<KdlDocument>,
    layout: &Layout,
    level: usize,
    first: Before,
) -> Result<(), AllocError>
    ensures block { (ms : List Node) → filled_block children.new ms ≡ filled_block children.old ms }
    ensures kept { map bare_node (map node_tree (nodes_in children.new)) ≡
        map bare_node (map node_tree (nodes_in children.old)) }
    ensures stays { IndentsBySpaces (settings layout.now.config)
        → StayAs (settings layout.now.config)
        (map node_tree (nodes_in children.old)) (map node_tree (nodes_in children.new)) }
    ensures spaced { OnOk result (NodesAreSpaced layout.now (level + 1) first
        (map node_tree (nodes_in children.old)) (map node_tree (nodes_in children.new))) }
{
    let Some(children) = children else {
        return Ok(());
    };
    let Some(inner) = level.checked_add(1) else {
        return Err(AllocError);
    };
    lay_out_nodes(children.nodes_mut(), layout, inner, first)
}
