//! Setters of a node's parts, and mutable references to them.

ghost use Rattle.kdl.specs.Bytes.{IsExchangedInDocument, IsExchangedInNode};
ghost use Rattle.kdl.specs.Change.{with_name, with_ty, with_children, with_format, ty_row, children_row};
ghost use Rattle.kdl.specs.Cleared.{new_node, new_document};
ghost use Rattle.kdl.specs.Fields.{block_of, name_of, node_format_of, ty_of};
ghost use Rattle.kdl.specs.ReadsBack.{BlockReadsBack, NodeEnds, ReadsAs};
ghost use Rattle.kdl.specs.Tree.{node_tree, document_tree};
ghost use Rattle.kdl.specs.contracts.document.KdlDocument.{the_row as document_row};
ghost use Rattle.kdl.specs.contracts.node.KdlNode.{the_row};
ghost use Rattle.kdl_parts.specs.contracts.format.KdlNodeFormat.{the_row as format_row};
ghost use Rattle.kdl.specs.declared.document.KdlDocument.{KdlDocument};
ghost use Rattle.kdl_entry.specs.contracts.identifier.KdlIdentifier.{the_row as identifier_row};
ghost use Rattle.kdl_entry.specs.Entries.{IsIdentifierText};
ghost use Rattle.kdl_entry.specs.Print.{print_identifier};
ghost use Rattle.kdl_entry.specs.Tree.{identifier_tree};
ghost use Rattle.kdl_text.specs.Chars.{Text};
ghost use Rattle.std.specs.Borrow.{Lends, LendsIf, sem};
ghost use Rattle.std.specs.Prelude.{◌≡◌, IfNone, IfOk, IfSome, None, Some, option_map, IsSome};

use crate::document::KdlDocument;
use crate::node::KdlNode;
use kdl_entry::{KdlIdentifier, identifier_allocator};
use kdl_parts::KdlNodeFormat;
use kdl_parts::format::new_format;
use kdl_text::span::SourceSpan;
use std::alloc::{AllocError, Global};

impl KdlNode {
    /// Creates a node of that name, without a type, entries and children. The texts of its format are empty, except the
    /// trailing one, which is a newline. Its span has offset and length 0. Returns an error if an allocation fails.
    ///
    /// ```
    /// let name = KdlIdentifier::from_text(alloc, "two words")?;
    /// let node = KdlNode::new(name)?; // prints "\"two words\"\n"
    /// ```
    #[tactic(auto, using(crate::proofs::Rules::new_node))]
    pub fn new(name: KdlIdentifier) -> Result<KdlNode, AllocError>
        ensures made { IfOk result (λ n. node_tree n ≡ new_node (identifier_tree name)) }
        // It reads back before any text, if the name has no spelling, or one that is that name.
        ensures ends { IfOk result (λ n. (identifier_tree name).repr ≡ None → NodeEnds n) }
        ensures ends_spelled { IfOk result (λ n. IsIdentifierText
            (print_identifier (identifier_tree name)) (identifier_tree name).value → NodeEnds n) }
    {
        KdlNode::named(name)
    }

    #[inline]
    fn named(name: KdlIdentifier) -> Result<KdlNode, AllocError>
        ensures { IfOk result (λ n. node_tree n ≡ new_node (identifier_tree name)) }
    {
        let alloc = *identifier_allocator(&name);
        let format = new_format(alloc)?;
        Ok(KdlNode {
            ty: None,
            name,
            entries: Vec::new(alloc),
            children: None,
            format: Some(format),
            span: SourceSpan { offset: 0, len: 0 },
        })
    }

    /// Returns a mutable reference to the name.
    ///
    /// ```
    /// let mut node = KdlNode::parse(alloc, "old 1 // kept")?;
    /// node.name_mut().set_value(String::from_str(alloc, "new")?);
    /// ```
    pub fn name_mut(&mut self) -> &mut KdlIdentifier
        ensures* writes_back { sem 𝓛 (Lends the_row identifier_row self.entry result
            (with_name self.old)) }
        ensures value { result.now ≡ name_of self.old }
    {
        &mut self.name
    }

    /// Sets the name, and nothing else.
    ///
    /// ```
    /// let mut node = KdlNode::parse(alloc, "old 1 // kept")?;
    /// node.set_name(KdlIdentifier::from_text(alloc, "new")?); // prints "new 1 // kept"
    /// ```
    pub fn set_name(&mut self, name: KdlIdentifier)
        ensures { self.new ≡ with_name self.old name }
    {
        self.name = name;
    }

    /// Returns a mutable reference to the optional type.
    ///
    /// ```
    /// let mut node = KdlNode::parse(alloc, "(date)today")?;
    /// *node.ty_mut() = None; // prints "today"
    /// ```
    pub fn ty_mut(&mut self) -> &mut Option<KdlIdentifier>
        ensures* writes_back { sem 𝓛 (Lends the_row ty_row self.entry result
            (with_ty self.old)) }
        ensures value { result.now ≡ ty_of self.old }
    {
        &mut self.ty
    }

    /// Sets the type, and nothing else.
    ///
    /// ```
    /// let mut node = KdlNode::parse(alloc, "today")?;
    /// node.set_ty(KdlIdentifier::from_text(alloc, "date")?); // prints "(date)today"
    /// ```
    pub fn set_ty(&mut self, ty: KdlIdentifier)
        ensures { self.new ≡ with_ty self.old (Some ty) }
    {
        self.ty = Some(ty);
    }

    /// Returns a mutable reference to the optional children.
    ///
    /// ```
    /// let mut node = KdlNode::parse(alloc, "a { b; c; }")?;
    /// if let Some(children) = node.children_mut() {
    ///     children.nodes_mut().clear();
    /// }
    /// ```
    pub fn children_mut(&mut self) -> &mut Option<KdlDocument>
        ensures* writes_back { sem 𝓛 (Lends the_row children_row self.entry result
            (with_children self.old)) }
        ensures value { result.now ≡ block_of self.old }
        // With a block that reads back where the old one did, the node reads back as before.
        ensures reads { (d e : KdlDocument) → result.now ≡ Some d
            → (BlockReadsBack d → BlockReadsBack e)
            → ReadsAs self.old (with_children self.old (Some e)) }
        ensures bytes { (d e : KdlDocument) (p q : Text) → result.now ≡ Some d →
            IsExchangedInDocument p q d e →
            IsExchangedInNode p q self.old (with_children self.old (Some e)) }
        ensures bytes_there { (e : KdlDocument) (p q : Text) → IsSome result.now →
            IfSome result.now (λ d. IsExchangedInDocument p q d e) →
            IsExchangedInNode p q self.old (with_children self.old (Some e)) }
    {
        &mut self.children
    }

    /// Sets the children, which replace the old ones, and nothing else.
    ///
    /// ```
    /// let mut node = KdlNode::parse(alloc, "a 1")?;
    /// node.set_children(KdlDocument::parse(alloc, "b; c")?); // replaces the old ones
    /// ```
    pub fn set_children(&mut self, children: KdlDocument)
        ensures { self.new ≡ with_children self.old (Some children) }
    {
        self.children = Some(children);
    }

    /// Drops the child block, and nothing else.
    ///
    /// ```
    /// let mut node = KdlNode::parse(alloc, "a 1 { b; }")?;
    /// node.clear_children();
    /// ```
    pub fn clear_children(&mut self)
        ensures { self.new ≡ with_children self.old None }
    {
        self.children = None;
    }

    /// Returns a mutable reference to the children. A node without a child block gets an empty new one, without
    /// allocating. The text before the node's terminator stays there, so a comment or a line continuation in it comes
    /// after the new block; `push_child` moves it before the block.
    ///
    /// ```
    /// let mut node = KdlNode::parse(alloc, "a")?;
    /// let b = KdlNode::new(KdlIdentifier::from_text(alloc, "b")?)?;
    /// node.ensure_children().nodes_mut().push(b)?;
    /// ```
    pub fn ensure_children(&mut self) -> &mut KdlDocument
        ensures* writes_back { sem 𝓛 (Lends the_row document_row self.entry result
            (λ d. with_children self.old (Some d))) }
        ensures found { IfSome (block_of self.old) (λ d. result.now ≡ d) }
        ensures made { IfNone (block_of self.old)
            (document_tree result.now ≡ new_document) }
        ensures bytes { IsSome (block_of self.old) → (e : KdlDocument) (p q : Text) →
            IsExchangedInDocument p q result.now e →
            IsExchangedInNode p q self.old (with_children self.old (Some e)) }
    {
        let alloc = *self.entries.allocator();
        self.children.get_or_insert(KdlDocument::new(alloc))
    }

    /// Returns a mutable reference to the texts around the parts, if the node keeps them.
    ///
    /// ```
    /// let mut node = KdlNode::parse(alloc, "a 1")?;
    /// if let Some(format) = node.format_mut() {
    ///     format.terminator = String::from_str(alloc, ";")?; // prints "a 1;"
    /// }
    /// ```
    pub fn format_mut(&mut self) -> Option<&mut KdlNodeFormat>
        ensures* writes_back { sem 𝓛 (LendsIf the_row format_row self.entry result
            (λ f. with_format self.old (Some f)) self.old) }
        ensures value { option_map (λ f. f.now) result ≡ node_format_of self.old }
    {
        self.format.as_mut()
    }

    /// Sets the texts around the parts, and nothing else.
    ///
    /// ```
    /// let mut node = KdlNode::parse(alloc, "a 1 ; ")?;
    /// node.set_format(KdlNodeFormat::new(alloc)); // prints "a 1", since all its texts are empty
    /// ```
    pub fn set_format(&mut self, format: KdlNodeFormat)
        ensures { self.new ≡ with_format self.old (Some format) }
    {
        self.format = Some(format);
    }

    /// Drops the node's own format, and nothing else: the spellings, and the formats of entries and children, are kept.
    ///
    /// ```
    /// let mut node = KdlNode::parse(alloc, "a  0x1 ; ")?;
    /// node.clear_format(); // the entry keeps its own spaces and its spelling
    /// ```
    pub fn clear_format(&mut self)
        ensures { self.new ≡ with_format self.old None }
    {
        self.format = None;
    }
}
