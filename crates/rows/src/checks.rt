//! The test of one text: the lines that it yields, and whether they are the expected ones.

use crate::answer::{answer, prints, takes};
use crate::dump::Dump;
use crate::fault::Fault;
use crate::fronts::{check_fronts, check_replaced};
use crate::item::Item;
use crate::layout::{Asked, lays_out};
use crate::line::{Call, Kind, Line};
use crate::notation::{Fills, encode};
use crate::query::check_query;
use crate::row::Row;
use kdl::{FloatFailure, KdlFloat, KdlIdentifier, KdlValue};
use kdl_diagnostics::Whole;
use std::alloc::{AllocError, Global};

/// A text, the call on it, its row, what is filled into the row's lines, and the place for `set each`.
#[derive(Clone, Copy)]
pub struct Case<'a> {
    pub row: &'a Row<'a>,
    pub call: Call,
    pub text: &'a str,
    pub fills: Fills<'a>,
    pub each: Option<&'a str>,
}

impl Case<'_> {
    /// The allocator.
    pub fn alloc(&self) -> Global {
        self.row.tell.alloc()
    }

    /// Returns the fault that this was expected of the text, and something else was found.
    pub fn differs(&self, wanted: &str, came: &str) -> Fault {
        match self.message(wanted, came) {
            Ok(message) => self.row.tell.wrong("", &message),
            Err(error) => Fault::from(error),
        }
    }

    /// The message: what was expected of the text, and what was found.
    fn message(&self, wanted: &str, came: &str) -> Result<String, AllocError> {
        let mut message = String::new(self.alloc());
        self.tell(&mut message, wanted, came)?;
        Ok(message)
    }

    /// Appends what was expected of the text, and what was found, to the message.
    fn tell(&self, message: &mut String, wanted: &str, came: &str) -> Result<(), AllocError> {
        encode(message, "", self.text)?;
        if let Some(place) = self.each {
            encode(message, " with a text in the place ", place)?;
        }
        encode(message, ": wanted: ", wanted)?;
        encode(message, " came: ", came)
    }
}

/// Tests the text.
pub fn check(case: &Case<'_>) -> Result<(), Fault> {
    match case.call {
        Call::Float => check_float(case),
        Call::String => check_string(case),
        Call::Fronts => check_fronts(case),
        Call::Replaced => check_replaced(case),
        Call::Query => check_query(case),
        _ => check_item(case),
    }
}

/// Tests the text as what its call reads.
fn check_item(case: &Case<'_>) -> Result<(), Fault> {
    let mut dump = Dump::new(case.alloc(), false);
    answer(case, case.call.whole(), &mut dump)?;
    compare(case, &dump)
}

/// Tests the text as the text of a float.
fn check_float(case: &Case<'_>) -> Result<(), Fault> {
    match KdlFloat::new(case.alloc(), case.text) {
        Ok(float) => {
            prints(case, &float.to_string(case.alloc())?, case.text)?;
            check_flag(case, "accepted")
        }
        Err(FloatFailure::Memory) => Err(Fault::from(AllocError)),
        Err(FloatFailure::NotAFloat) => check_flag(case, "refused"),
    }
}

/// Checks that the only line that the text yields is this one.
fn check_flag(case: &Case<'_>, flag: &str) -> Result<(), Fault> {
    let mut dump = Dump::new(case.alloc(), false);
    dump.text(flag, case.text);
    compare(case, &dump)
}

/// Prints the text as a string value.
fn check_string(case: &Case<'_>) -> Result<(), Fault> {
    let value = KdlValue::from_text(case.alloc(), case.text)?;
    check_printed(case, &value.to_string(case.alloc())?)
}

/// Checks that the text as a name prints this too, and that it reads back and is what is expected.
fn check_printed(case: &Case<'_>, printed: &str) -> Result<(), Fault> {
    let name = KdlIdentifier::from_text(case.alloc(), case.text)?;
    prints(case, &name.to_string(case.alloc())?, printed)?;
    reads_back(case, printed)?;
    let mut dump = Dump::new(case.alloc(), false);
    dump.text("accepted", case.text);
    dump.form("", "prints", ": ", printed);
    compare(case, &dump)
}

/// Checks that what was printed is an identifier, and its value is the text.
fn reads_back(case: &Case<'_>, printed: &str) -> Result<(), Fault> {
    match KdlIdentifier::parse(case.alloc(), printed) {
        Ok(identifier) => prints(case, identifier.value(), case.text),
        Err(_) => Err(case.differs("an identifier", printed)),
    }
}

/// Checks that each expected line was found.
pub fn compare(case: &Case<'_>, dump: &Dump) -> Result<(), Fault> {
    dump.outcome()?;
    for notation in case.row.lines {
        if let Kind::Wanted = Line::of(notation).kind() {
            let line = case.fills.line(notation)?;
            compare_line(case, &line, dump)?;
        }
    }
    Ok(())
}

/// Checks that the expected line is one of those that were found, or that what it says holds for the text.
fn compare_line(case: &Case<'_>, wanted: &str, dump: &Dump) -> Result<(), Fault> {
    if dump.has(wanted) {
        return Ok(());
    }
    let line = Line::of(wanted);
    match (line.label, line.text) {
        ("whole", None) => is_whole(case, dump),
        ("steps", Some(bounds)) => takes(case, wanted, bounds),
        ("same data", Some(other)) => says_the_same(case, wanted, other),
        ("no get", Some(name)) => gets(case, wanted, name, None),
        (label, text) => match (label.strip_prefix("get "), text) {
            (Some(name), Some(_)) => gets(case, wanted, name, text),
            (_, _) => compare_layout(case, wanted, dump.came(label)),
        },
    }
}

/// Checks that the expected line is one of layout, and that what it says holds for the text. If not, `came` was found
/// in its place.
fn compare_layout(case: &Case<'_>, wanted: &str, came: &str) -> Result<(), Fault> {
    match Asked::of(wanted) {
        Some(asked) => lays_out(case, asked),
        None => Err(case.differs(wanted, came)),
    }
}

/// Checks that each line with a text that was found is expected.
fn is_whole(case: &Case<'_>, dump: &Dump) -> Result<(), Fault> {
    for came in dump.lines() {
        let line = Line::of(came);
        let is_free = line.words().is_empty() || line.label == "bytes";
        if !is_free && !is_given(case.row.lines, line.label) {
            return Err(case.differs("whole", came));
        }
    }
    Ok(())
}

/// Whether one of the lines has the label.
fn is_given(lines: &[&str], label: &str) -> bool {
    for line in lines {
        if Line::of(line).label == label {
            return true;
        }
    }
    false
}

/// Checks that the document has the same data as that of the other text.
fn says_the_same(case: &Case<'_>, wanted: &str, other: &str) -> Result<(), Fault> {
    let Call::Document = case.call else {
        return Err(case.differs(wanted, "no such line for this call"));
    };
    match Item::parse_v2(case.alloc(), other) {
        Ok(item) => says_the_same_as(case, &item),
        Err(_) => Err(case.differs(wanted, "refused")),
    }
}

/// Checks that the document has the same data as the item.
fn says_the_same_as(case: &Case<'_>, item: &Item) -> Result<(), Fault> {
    let mut own = Dump::new(case.alloc(), true);
    answer(case, Whole::Document, &mut own)?;
    has_data(case, &own, item)
}

/// Checks that the lines are those of the item's data, or those of its only node if a document is read from a node's
/// text.
pub fn has_data(case: &Case<'_>, data: &Dump, item: &Item) -> Result<(), Fault> {
    let mut others = Dump::new(case.alloc(), true);
    match item.only_node() {
        Some(node) if case.call.is_node() => others.node(node),
        _ => item.add_to(&mut others),
    }
    data.outcome()?;
    others.outcome()?;
    for at in 0..=data.lines().len() {
        if data.line(at) != others.line(at) {
            return Err(case.differs(data.line(at), others.line(at)));
        }
    }
    Ok(())
}

/// Checks that the value of the first argument of the first node of that name prints the text, or that there is no such
/// value if no text is given.
fn gets(case: &Case<'_>, wanted: &str, name: &str, text: Option<&str>) -> Result<(), Fault> {
    let Call::Document = case.call else {
        return Err(case.differs(wanted, "no such line for this call"));
    };
    match Item::parse(case.alloc(), Whole::Document, case.text) {
        Ok(item) => is_value(case, wanted, item.get(name), text),
        Err(_) => Err(case.differs(wanted, "refused")),
    }
}

/// Checks that the value prints the text, or that there is neither.
fn is_value(
    case: &Case<'_>,
    wanted: &str,
    value: Option<&KdlValue>,
    text: Option<&str>,
) -> Result<(), Fault> {
    match (value, text) {
        (None, None) => Ok(()),
        (None, Some(_)) => Err(case.differs(wanted, "no value")),
        (Some(_), None) => Err(case.differs(wanted, "a value")),
        (Some(value), Some(text)) => prints(case, &value.to_string(case.alloc())?, text),
    }
}
