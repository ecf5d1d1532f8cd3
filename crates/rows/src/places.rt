//! Texts set by hand in the places of formats, before an item is laid out.

use crate::fault::{Fault, Teller};
use kdl::{KdlDocument, KdlDocumentFormat, KdlEntry, KdlEntryFormat, KdlNode, KdlNodeFormat};

/// All places: of the outermost nodes, of their entries, of their blocks, and of the document.
pub const PLACES: [&str; 20] = [
    "node leading",
    "node before_ty_name",
    "node after_ty_name",
    "node after_ty",
    "node before_children",
    "node before_terminator",
    "node terminator",
    "node trailing",
    "entry leading",
    "entry value_repr",
    "entry trailing",
    "entry after_ty",
    "entry before_ty_name",
    "entry after_ty_name",
    "entry after_key",
    "entry after_eq",
    "block leading",
    "block trailing",
    "leading",
    "trailing",
];

/// The place of that name in the format of a node.
fn node_place<'a>(format: &'a mut KdlNodeFormat, name: &str) -> Option<&'a mut String> {
    match name {
        "leading" => Some(&mut format.leading),
        "before_ty_name" => Some(&mut format.before_ty_name),
        "after_ty_name" => Some(&mut format.after_ty_name),
        "after_ty" => Some(&mut format.after_ty),
        "before_children" => Some(&mut format.before_children),
        "before_terminator" => Some(&mut format.before_terminator),
        "terminator" => Some(&mut format.terminator),
        "trailing" => Some(&mut format.trailing),
        _ => None,
    }
}

/// The place of that name in the format of an entry.
fn entry_place<'a>(format: &'a mut KdlEntryFormat, name: &str) -> Option<&'a mut String> {
    match name {
        "leading" => Some(&mut format.leading),
        "value_repr" => Some(&mut format.value_repr),
        "trailing" => Some(&mut format.trailing),
        "after_ty" => Some(&mut format.after_ty),
        "before_ty_name" => Some(&mut format.before_ty_name),
        "after_ty_name" => Some(&mut format.after_ty_name),
        "after_key" => Some(&mut format.after_key),
        "after_eq" => Some(&mut format.after_eq),
        _ => None,
    }
}

/// The place of that name in the format of a document, or of a block.
fn margin<'a>(format: &'a mut KdlDocumentFormat, name: &str) -> Option<&'a mut String> {
    match name {
        "leading" => Some(&mut format.leading),
        "trailing" => Some(&mut format.trailing),
        _ => None,
    }
}

/// A text to be set in a place, and what reports that the place is missing.
#[derive(Clone, Copy)]
pub struct Setting<'a> {
    pub tell: &'a Teller<'a>,
    pub place: &'a str,
    pub text: &'a str,
}

impl Setting<'_> {
    /// Sets the text in its place of the document, or of each of its nodes.
    pub fn put_in_document(&self, document: &mut KdlDocument) -> Result<(), Fault> {
        if !self.place.contains(' ') {
            return self.put_in_margin(document, self.place);
        }
        for node in document.nodes_mut().iter_mut() {
            self.put_in_node(node)?;
        }
        Ok(())
    }

    /// Sets the text in its place of the node, of each of its entries, or of its block, if it has one.
    pub fn put_in_node(&self, node: &mut KdlNode) -> Result<(), Fault> {
        let (owner, place) = self.place.split_once(' ').unwrap_or(("", ""));
        match owner {
            "node" => self.put_in_format(node.format_mut(), place),
            "entry" => self.put_in_entries(node.entries_mut(), place),
            "block" => self.put_in_block(node.children_mut(), place),
            _ => self.put(None),
        }
    }

    /// Sets the text in that place of the format of a node.
    fn put_in_format(&self, format: Option<&mut KdlNodeFormat>, place: &str) -> Result<(), Fault> {
        match format {
            Some(format) => self.put(node_place(format, place)),
            None => self.put(None),
        }
    }

    /// Sets the text in that place of each entry.
    fn put_in_entries(&self, entries: &mut Vec<KdlEntry>, place: &str) -> Result<(), Fault> {
        for entry in entries.iter_mut() {
            match entry.format_mut() {
                Some(format) => self.put(entry_place(format, place))?,
                None => self.put(None)?,
            }
        }
        Ok(())
    }

    /// Sets the text in that place of the block, if there is one.
    fn put_in_block(&self, block: &mut Option<KdlDocument>, place: &str) -> Result<(), Fault> {
        match block {
            Some(block) => self.put_in_margin(block, place),
            None => Ok(()),
        }
    }

    /// Sets the text in that place of the document or block.
    fn put_in_margin(&self, document: &mut KdlDocument, place: &str) -> Result<(), Fault> {
        match document.format_mut() {
            Some(format) => self.put(margin(format, place)),
            None => self.put(None),
        }
    }

    /// Sets the text in the place, if there is one.
    fn put(&self, place: Option<&mut String>) -> Result<(), Fault> {
        let Some(place) = place else {
            return Err(self.tell.wrong("nothing has the place ", self.place));
        };
        place.clear();
        place.push_str(self.text)?;
        Ok(())
    }
}
