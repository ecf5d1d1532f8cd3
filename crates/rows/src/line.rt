//! The lines of a row, and what each is for.

use kdl_diagnostics::Whole;

/// What is called on a text.
#[derive(Clone, Copy)]
pub enum Call {
    Document,
    Node,
    Entry,
    Identifier,
    Float,
    String,
    Fronts,
    Replaced,
    Query,
}

impl Call {
    /// What the call reads a text as.
    pub fn whole(self) -> Whole {
        match self {
            Call::Node => Whole::Node,
            Call::Entry => Whole::Entry,
            Call::Identifier => Whole::Identifier,
            _ => Whole::Document,
        }
    }

    /// Whether the call reads a node.
    pub fn is_node(self) -> bool {
        match self {
            Call::Node => true,
            _ => false,
        }
    }

    /// Whether the call reads a query.
    pub fn is_query(self) -> bool {
        match self {
            Call::Query => true,
            _ => false,
        }
    }
}

/// What a line is for.
#[derive(Clone, Copy)]
pub enum Kind {
    /// A text to be tested.
    Text(Call),
    /// Says which texts are made from the row's.
    Making,
    /// Says how texts are laid out.
    Layout,
    /// Sets a text in a place before layout.
    Place,
    /// The document that a query is tried on.
    On,
    /// Says what is expected.
    Wanted,
}

/// What the lines with these labels and a text are for.
const KINDS: [(&str, Kind); 15] = [
    ("document", Kind::Text(Call::Document)),
    ("node", Kind::Text(Call::Node)),
    ("entry", Kind::Text(Call::Entry)),
    ("identifier", Kind::Text(Call::Identifier)),
    ("float", Kind::Text(Call::Float)),
    ("string", Kind::Text(Call::String)),
    ("fronts", Kind::Text(Call::Fronts)),
    ("replaced", Kind::Text(Call::Replaced)),
    ("query", Kind::Text(Call::Query)),
    ("each", Kind::Making),
    ("by", Kind::Making),
    ("within", Kind::Making),
    ("indent", Kind::Layout),
    ("level", Kind::Layout),
    ("on", Kind::On),
];

/// A line of a row: its label, and its text, or none if the line is only a label.
#[derive(Clone, Copy)]
pub struct Line<'a> {
    pub label: &'a str,
    pub text: Option<&'a str>,
}

impl<'a> Line<'a> {
    /// The parts of a line.
    pub fn of(line: &'a str) -> Line<'a> {
        if let Some((label, text)) = line.split_once(": ") {
            return Line {
                label,
                text: Some(text),
            };
        }
        match line.strip_suffix(':') {
            Some(label) => Line {
                label,
                text: Some(""),
            },
            None => Line {
                label: line,
                text: None,
            },
        }
    }

    /// Returns the text of the line, or an empty text if there is none.
    pub fn words(&self) -> &'a str {
        match self.text {
            Some(text) => text,
            None => "",
        }
    }

    /// The place whose text the line sets.
    pub fn place(&self) -> Option<&'a str> {
        match self.text {
            Some(_) => self.label.strip_prefix("set "),
            None => None,
        }
    }

    /// What the line is for.
    pub fn kind(&self) -> Kind {
        if self.text.is_none() {
            return match self.label {
                "keep spelling" | "keep inner comments" | "keep one line" => Kind::Layout,
                _ => Kind::Wanted,
            };
        }
        for (label, kind) in &KINDS {
            if *label == self.label {
                return *kind;
            }
        }
        match self.place() {
            Some(_) => Kind::Place,
            None => Kind::Wanted,
        }
    }

    /// Whether the line says what a text prints after layout.
    pub fn is_layout(&self) -> bool {
        self.label.contains("strip") || self.label.contains("fmt")
    }
}
