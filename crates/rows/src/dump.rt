//! What a text is read as, in lines like those of a row.

ghost use Rattle.kdl.specs.DocumentLookups.{nodes_of};
ghost use Rattle.kdl.specs.Fields.{block_of};
ghost use Rattle.kdl.specs.Internal.Count.{count_doc, count_node, count_option};
ghost use Rattle.std.specs.List.{sum_by};
ghost use Rattle.std.specs.Prelude.{◌+◌, ◌≤◌};

use crate::line::Line;
use kdl::{
    KdlDiagnostic, KdlDocument, KdlDocumentFormat, KdlEntry, KdlEntryFormat, KdlIdentifier,
    KdlNode, KdlNodeFormat, KdlValue, Severity, SourceSpan,
};
use kdl_query::QueryError;
use std::alloc::{AllocError, Global};

/// The lines that a text yields: all of them, or only those of its data, which say what the text means and not how it
/// is written.
#[derive(Drop)]
pub struct Dump {
    alloc: Global,
    is_data: bool,
    lines: Vec<String>,
    /// Whether the allocation for a line failed.
    is_short: bool,
}

/// A document whose lines are still to come, and the text before their labels.
#[derive(Drop)]
struct Waiting<'a> {
    prefix: String,
    document: &'a KdlDocument,
}

impl Dump {
    /// No lines.
    pub fn new(alloc: Global, is_data: bool) -> Dump {
        Dump {
            alloc,
            is_data,
            lines: Vec::new(alloc),
            is_short: false,
        }
    }

    /// All lines.
    pub fn lines(&self) -> &[String] {
        &self.lines
    }

    /// The line at that place.
    pub fn line(&self, at: usize) -> &str {
        match self.lines.get(at) {
            Some(line) => line,
            None => "nothing",
        }
    }

    /// Whether the line is there.
    pub fn has(&self, wanted: &str) -> bool {
        for line in &self.lines {
            if line.as_str() == wanted {
                return true;
            }
        }
        false
    }

    /// The first line with that label.
    pub fn came(&self, label: &str) -> &str {
        for line in &self.lines {
            if Line::of(line).label == label {
                return line;
            }
        }
        "no such line"
    }

    /// Returns an error if the allocation for a line failed.
    pub fn outcome(&self) -> Result<(), AllocError> {
        if self.is_short {
            return Err(AllocError);
        }
        Ok(())
    }

    /// Returns what was printed, or nothing if an allocation failed, which is noted.
    fn taken(&mut self, printed: Result<String, AllocError>) -> String {
        match printed {
            Ok(printed) => printed,
            Err(_) => {
                self.is_short = true;
                String::new(self.alloc)
            }
        }
    }

    /// Adds a line of data.
    fn data(&mut self, prefix: &str, name: &str, mark: &str, text: &str) {
        let line = format!(in self.alloc; "{prefix}{name}{mark}{text}");
        let line = self.taken(line);
        match self.lines.push(line) {
            Ok(()) => {}
            Err(_) => self.is_short = true,
        }
    }

    /// Adds a line that says how a text is written.
    pub fn form(&mut self, prefix: &str, name: &str, mark: &str, text: &str) {
        if !self.is_data {
            self.data(prefix, name, mark, text);
        }
    }

    /// Adds whether the text is accepted, and its length.
    pub fn text(&mut self, flag: &str, text: &str) {
        self.form(flag, "", "", "");
        let bytes = text.len().to_string(self.alloc);
        let bytes = self.taken(bytes);
        self.form("", "bytes", ": ", &bytes);
    }

    /// Adds how many there are, or that there is none.
    fn count(&mut self, prefix: &str, name: &str, count: usize) {
        if count == 0 {
            self.data(prefix, "no ", name, "");
            return;
        }
        let count = count.to_string(self.alloc);
        let count = self.taken(count);
        self.data(prefix, name, ": ", &count);
    }

    /// Adds a span as its start and its end.
    fn span(&mut self, prefix: &str, name: &str, span: SourceSpan) {
        let range = range(self.alloc, span);
        let range = self.taken(range);
        self.form(prefix, name, ": ", &range);
    }

    /// Adds the value, the spelling and the span of an identifier, or that there is none.
    fn name(&mut self, prefix: &str, name: &str, identifier: Option<&KdlIdentifier>) {
        let Some(identifier) = identifier else {
            self.data(prefix, "no ", name, "");
            return;
        };
        self.data(prefix, name, ": ", identifier.value());
        let inner = format!(in self.alloc; "{prefix}{name} ");
        let inner = self.taken(inner);
        self.spelling(&inner, identifier);
    }

    /// Adds the spelling and the span of an identifier.
    fn spelling(&mut self, prefix: &str, identifier: &KdlIdentifier) {
        match identifier.repr() {
            Some(repr) => self.form(prefix, "spelling", ": ", repr),
            None => self.form(prefix, "no spelling", "", ""),
        }
        self.span(prefix, "span", identifier.span());
    }

    /// Adds the lines of an identifier.
    pub fn identifier(&mut self, identifier: &KdlIdentifier) {
        self.data("", "value", ": ", identifier.value());
        self.spelling("", identifier);
    }

    /// Adds a value that is a number.
    fn number(&mut self, prefix: &str, number: i128) {
        let number = number.to_string(self.alloc);
        let number = self.taken(number);
        self.data(prefix, "value", ": number ", &number);
    }

    /// Adds a value and its kind.
    fn value(&mut self, prefix: &str, value: &KdlValue) {
        match value {
            KdlValue::String(text) => self.data(prefix, "value", ": string ", text),
            KdlValue::Integer(number) => self.number(prefix, *number),
            KdlValue::Float(float) => self.data(prefix, "value", ": float ", float.as_str()),
            KdlValue::Bool(true) => self.data(prefix, "value", ": bool ", "true"),
            KdlValue::Bool(false) => self.data(prefix, "value", ": bool ", "false"),
            KdlValue::Null => self.data(prefix, "value", ": ", "null"),
        }
    }

    /// Adds the lines of an entry.
    pub fn entry(&mut self, prefix: &str, entry: &KdlEntry) {
        self.name(prefix, "key", entry.name());
        self.name(prefix, "type", entry.ty());
        self.value(prefix, entry.value());
        self.span(prefix, "span", entry.span());
        match entry.format() {
            Some(format) => self.entry_format(prefix, format),
            None => self.form(prefix, "no format", "", ""),
        }
    }

    /// Adds the places of an entry.
    fn entry_format(&mut self, prefix: &str, format: &KdlEntryFormat) {
        if format.autoformat_keep {
            self.form(prefix, "autoformat_keep", "", "");
        }
        self.form(prefix, "leading", ": ", &format.leading);
        self.form(prefix, "value_repr", ": ", &format.value_repr);
        self.form(prefix, "trailing", ": ", &format.trailing);
        self.form(prefix, "after_ty", ": ", &format.after_ty);
        self.form(prefix, "before_ty_name", ": ", &format.before_ty_name);
        self.form(prefix, "after_ty_name", ": ", &format.after_ty_name);
        self.form(prefix, "after_key", ": ", &format.after_key);
        self.form(prefix, "after_eq", ": ", &format.after_eq);
    }

    /// Adds a node's own lines, without those of its entries and its block.
    fn own(&mut self, prefix: &str, node: &KdlNode) {
        self.name(prefix, "name", Some(node.name()));
        self.name(prefix, "type", node.ty());
        self.count(prefix, "entries", node.entries().len());
        self.span(prefix, "span", node.span());
        match node.format() {
            Some(format) => self.node_format(prefix, format),
            None => self.form(prefix, "no format", "", ""),
        }
    }

    /// Adds the places of a node.
    fn node_format(&mut self, prefix: &str, format: &KdlNodeFormat) {
        self.form(prefix, "leading", ": ", &format.leading);
        self.form(prefix, "before_ty_name", ": ", &format.before_ty_name);
        self.form(prefix, "after_ty_name", ": ", &format.after_ty_name);
        self.form(prefix, "after_ty", ": ", &format.after_ty);
        self.form(prefix, "before_children", ": ", &format.before_children);
        self.form(prefix, "before_terminator", ": ", &format.before_terminator);
        self.form(prefix, "terminator", ": ", &format.terminator);
        self.form(prefix, "trailing", ": ", &format.trailing);
    }

    /// Adds the lines of a node, except those in its block, which is added to `waiting`.
    fn outer<'a>(&mut self, prefix: &str, node: &'a KdlNode, waiting: &mut Vec<Waiting<'a>>)
        // No more waits than before, and the block.
        ensures { sum_by (λ w. count_doc w.document.now) waiting.new.items
            ≤ sum_by (λ w. count_doc w.document.now) waiting.old.items + count_option (block_of node.now) }
    {
        self.own(prefix, node);
        for (index, entry) in node.entries().iter().enumerate() {
            let number = index.saturating_add(1);
            let inner = format!(in self.alloc; "{prefix}entry {number} ");
            let inner = self.taken(inner);
            self.entry(&inner, entry);
        }
        let Some(document) = node.children() else {
            self.data(prefix, "no block", "", "");
            return;
        };
        let prefix = format!(in self.alloc; "{prefix}block ");
        let prefix = self.taken(prefix);
        match waiting.push(Waiting { prefix, document }) {
            Ok(()) => {}
            Err(_) => self.is_short = true,
        }
    }

    /// Adds the lines of a document, except those in the blocks of its nodes, which are added to `waiting`.
    fn level<'a>(&mut self, prefix: &str, document: &'a KdlDocument, waiting: &mut Vec<Waiting<'a>>)
        // No more waits than before, and what is in the nodes.
        ensures { sum_by (λ w. count_doc w.document.now) waiting.new.items
            ≤ sum_by (λ w. count_doc w.document.now) waiting.old.items + sum_by count_node (nodes_of document.now) }
    {
        self.margins(prefix, document);
        for (index, node) in document.nodes().iter().enumerate() {
            let number = index.saturating_add(1);
            let inner = format!(in self.alloc; "{prefix}{number} ");
            let inner = self.taken(inner);
            self.outer(&inner, node, waiting);
        }
    }

    /// Adds the lines of the waiting documents, and of all documents in them.
    fn all(&mut self, waiting: &mut Vec<Waiting<'_>>) {
        while let Some(next) = waiting.pop() {
            self.level(&next.prefix, next.document, waiting);
        }
    }

    /// Adds a document's own lines.
    fn margins(&mut self, prefix: &str, document: &KdlDocument) {
        self.count(prefix, "nodes", document.nodes().len());
        self.span(prefix, "span", document.span());
        match document.format() {
            Some(format) => self.document_format(prefix, format),
            None => self.form(prefix, "no format", "", ""),
        }
    }

    /// Adds the places of a document.
    fn document_format(&mut self, prefix: &str, format: &KdlDocumentFormat) {
        self.form(prefix, "leading", ": ", &format.leading);
        self.form(prefix, "trailing", ": ", &format.trailing);
    }

    /// Adds the lines of a node.
    pub fn node(&mut self, node: &KdlNode) {
        let mut waiting = Vec::new(self.alloc);
        self.outer("", node, &mut waiting);
        self.all(&mut waiting);
    }

    /// Adds the lines of a document.
    pub fn document(&mut self, document: &KdlDocument) {
        let mut waiting = Vec::new(self.alloc);
        self.level("", document, &mut waiting);
        self.all(&mut waiting);
    }

    /// Adds the lines of the first diagnostic, the span and the message of each, and how many there are.
    pub fn diagnostics(&mut self, diagnostics: &[KdlDiagnostic]) {
        let count = diagnostics.len().to_string(self.alloc);
        let count = self.taken(count);
        self.form("", "diagnostics", ": ", &count);
        for (index, told) in diagnostics.iter().enumerate() {
            if index == 0 {
                self.first(told);
            }
            let number = index.saturating_add(1).to_string(self.alloc);
            let number = self.taken(number);
            self.place(told, "diagnostic ", &number);
        }
    }

    /// Adds the span and the message of a diagnostic.
    fn place(&mut self, told: &KdlDiagnostic, name: &str, number: &str) {
        let range = range(self.alloc, told.span);
        let range = self.taken(range);
        let words = format!(in self.alloc; ": {range} {}", words_of(&told.message));
        let words = self.taken(words);
        self.form(name, number, &words, "");
    }

    /// Adds the lines of the first diagnostic.
    fn first(&mut self, told: &KdlDiagnostic) {
        self.span("", "span", told.span);
        self.span("", "refused", told.span);
        self.place(told, "refused", "");
        self.words("message", &told.message);
        self.words("label", &told.label);
        self.words("help", &told.help);
        self.form("", "severity", ": ", severity(told));
    }

    /// Adds the lines of the error of a query.
    pub fn query_error(&mut self, error: &QueryError) {
        let range = range(self.alloc, error.span);
        let range = self.taken(range);
        let words = format!(in self.alloc; ": {range} {}", error.message);
        let words = self.taken(words);
        self.span("", "refused", error.span);
        self.form("refused", "", &words, "");
        self.form("", "message", ": ", error.message);
        match error.help {
            Some(help) => self.form("", "help", ": ", help),
            None => self.form("", "no ", "help", ""),
        }
    }

    /// Adds a message, label or hint of a diagnostic, or that there is none.
    fn words(&mut self, name: &str, words: &Option<String>) {
        match words {
            Some(words) => self.form("", name, ": ", words),
            None => self.form("", "no ", name, ""),
        }
    }
}

/// The severity of the diagnostic.
fn severity(told: &KdlDiagnostic) -> &'static str {
    match told.severity {
        Severity::Advice => "advice",
        Severity::Warning => "warning",
        Severity::Error => "error",
    }
}

/// The text, or `none`.
fn words_of(words: &Option<String>) -> &str {
    match words {
        Some(words) => words,
        None => "none",
    }
}

/// A span as `START..END`.
fn range(alloc: Global, span: SourceSpan) -> Result<String, AllocError> {
    let start = span.offset;
    let end = start.saturating_add(span.len);
    format!(in alloc; "{start}..{end}")
}
