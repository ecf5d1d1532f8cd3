//! What a text is read as.

use crate::dump::Dump;
use crate::fault::Fault;
use crate::places::Setting;
use kdl::{
    FormatConfig, KdlDocument, KdlEntry, KdlIdentifier, KdlNode, KdlValue, Layout, ParseFailure,
};
use kdl_diagnostics::Whole;
use std::alloc::{AllocError, Global};

/// What a text is read as.
#[derive(Drop)]
pub enum Item {
    Document(KdlDocument),
    Node(KdlNode),
    Entry(KdlEntry),
    Identifier(KdlIdentifier),
}

impl Item {
    /// Parses the text as such an item.
    pub fn parse(alloc: Global, whole: Whole, text: &str) -> Result<Item, ParseFailure> {
        match whole {
            Whole::Document => Ok(Item::Document(KdlDocument::parse(alloc, text)?)),
            Whole::Node => Ok(Item::Node(KdlNode::parse(alloc, text)?)),
            Whole::Entry => Ok(Item::Entry(KdlEntry::parse(alloc, text)?)),
            Whole::Identifier => Ok(Item::Identifier(KdlIdentifier::parse(alloc, text)?)),
        }
    }

    /// Parses the text as a document of version 2.
    pub fn parse_v2(alloc: Global, text: &str) -> Result<Item, ParseFailure> {
        Ok(Item::Document(KdlDocument::parse_v2(alloc, text)?))
    }

    /// What the item prints.
    pub fn printed(&self, alloc: Global) -> Result<String, AllocError> {
        match self {
            Item::Document(document) => document.to_string(alloc),
            Item::Node(node) => node.to_string(alloc),
            Item::Entry(entry) => entry.to_string(alloc),
            Item::Identifier(identifier) => identifier.to_string(alloc),
        }
    }

    /// Adds the lines of the item.
    pub fn add_to(&self, dump: &mut Dump) {
        match self {
            Item::Document(document) => dump.document(document),
            Item::Node(node) => dump.node(node),
            Item::Entry(entry) => dump.entry("", entry),
            Item::Identifier(identifier) => dump.identifier(identifier),
        }
    }

    /// The value of the first argument of the first node of that name.
    pub fn get(&self, name: &str) -> Option<&KdlValue> {
        match self {
            Item::Document(document) => document.get_arg(name),
            _ => None,
        }
    }

    /// The only node of a document.
    pub fn only_node(&self) -> Option<&KdlNode> {
        match self {
            Item::Document(document) => match document.nodes() {
                [node] => Some(node),
                _ => None,
            },
            _ => None,
        }
    }

    /// Sets a text in its place of a document or a node.
    pub fn put(&mut self, setting: &Setting<'_>) -> Result<(), Fault> {
        match self {
            Item::Document(document) => setting.put_in_document(document),
            Item::Node(node) => setting.put_in_node(node),
            _ => Ok(()),
        }
    }

    /// Flags the first entry of the first node to keep its form.
    pub fn keep_first(&mut self) {
        match self {
            Item::Document(document) => {
                if let Some(node) = document.nodes_mut().first_mut() {
                    keep_first_entry(node);
                }
            }
            Item::Node(node) => keep_first_entry(node),
            _ => {}
        }
    }

    /// Lays out a document or a node.
    pub fn lay_out(&mut self, no_comments: bool) -> Result<(), AllocError> {
        match self {
            Item::Document(document) if no_comments => document.autoformat_no_comments(),
            Item::Document(document) => document.autoformat(),
            Item::Node(node) if no_comments => node.autoformat_no_comments(),
            Item::Node(node) => node.autoformat(),
            _ => Ok(()),
        }
    }

    /// Lays out a document or a node with that configuration.
    pub fn lay_out_as(&mut self, config: &FormatConfig<'_>) -> Result<(), AllocError> {
        match self {
            Item::Document(document) => document.autoformat_config(config),
            Item::Node(node) => node.autoformat_config(config),
            _ => Ok(()),
        }
    }

    /// Lays out a document or a node with that layout.
    pub fn lay_out_by(&mut self, layout: &Layout<'_>) -> Result<(), AllocError> {
        match self {
            Item::Document(document) => document.autoformat_layout(layout),
            Item::Node(node) => node.autoformat_layout(layout),
            _ => Ok(()),
        }
    }
}

/// Flags the first entry of the node to keep its form.
fn keep_first_entry(node: &mut KdlNode) {
    if let Some(entry) = node.entries_mut().first_mut() {
        entry.keep_format();
    }
}
