//! Query texts from queries.
#![tactic(auto, using(crate::proofs::Rules::print))]

ghost use Rattle.kdl_parts.specs.Printed.{Prints};
ghost use Rattle.kdl_query.specs.Data as data';
ghost use Rattle.kdl_query.specs.Printed as printed';
ghost use Rattle.kdl_query.specs.Printed.{print_accessor, print_combinator, print_compared, print_comparison, print_literal, print_name, print_node, print_other, print_selector, print_step, print_test, print_type, query_prints};
ghost use Rattle.kdl_query.specs.Tree.{accessor_says, first_says, literal_says, node_test_says, selector_says, test_says, type_test_says};
ghost use Rattle.std.specs.Char.{is_ascii};
ghost use Rattle.std.specs.Fmt.{decimal};
ghost use Rattle.std.specs.List.{flat_map, list_all, list_any};
ghost use Rattle.std.specs.Prelude.{◌≡◌, ◌++◌, ◌∷◌, [], Some, map, true};
ghost use Rattle.std.specs.Str.{chars, encode_utf8_all};

use crate::tree::{
    Accessor, Combinator, Comparison, First, Literal, NodeTest, Query, Selector, Step, Test,
    TypeTest,
};
use kdl::KdlValue;
use kdl_text::strings::is_bare;
use kdl_value::{write_spelled, write_text};
use std::fmt;
use std::fmt::{Display, Formatter, Write};

/// Writes a word, which is ASCII.
fn write_word<W: Write>(word: &str, f: &mut Formatter<W>) -> fmt::Result
    requires { list_all is_ascii word.now ≡ true }
    ensures { Prints W.write_str_gives f.old result word.now f.new }
{
    f.write_str(word)
}

/// Whether the character is one of operators or comparisons.
fn is_operator_char(c: char) -> bool
    ensures { result ≡ printed'.is_operator_char c }
{
    matches!(c, '>' | '+' | '|' | '!' | '<' | '^' | '$' | '*')
}

/// Whether the text has a character of operators or comparisons.
fn has_operator_char(text: &str) -> bool
    ensures { result ≡ list_any printed'.is_operator_char (chars text.now) }
{
    text.chars().any(is_operator_char)
}

/// Writes a bare string between quotes.
fn write_quoted<W: Write>(text: &str, f: &mut Formatter<W>) -> fmt::Result
    ensures { Prints W.write_str_gives f.old result (34 ∷ chars text.now ++ (34 ∷ [])) f.new }
{
    write_word("\"", f)?;
    write_text(text, f)?;
    write_word("\"", f)
}

/// Writes a name: in quotes if it could be taken for an operator or a part of one.
fn write_name<W: Write>(name: &str, f: &mut Formatter<W>) -> fmt::Result
    ensures { Prints W.write_str_gives f.old result (print_name (chars name.now)) f.new }
{
    if is_bare(name) && has_operator_char(name) {
        write_quoted(name, f)
    } else {
        write_spelled(name, f)
    }
}

fn write_type<W: Write>(node_type: &TypeTest, f: &mut Formatter<W>) -> fmt::Result
    ensures { Prints W.write_str_gives f.old result (print_type (type_test_says node_type.now)) f.new }
{
    match node_type {
        TypeTest::Any => write_word("()", f),
        TypeTest::Named(name) => {
            write_word("(", f)?;
            write_name(name.as_str(), f)?;
            write_word(")", f)
        }
    }
}

fn write_number<W: Write>(number: usize, f: &mut Formatter<W>) -> fmt::Result
    ensures { Prints W.write_str_gives f.old result (decimal number) f.new }
{
    write!(f, "{number}")
}

fn write_index<W: Write>(index: usize, f: &mut Formatter<W>) -> fmt::Result
    ensures { Prints W.write_str_gives f.old result (print_accessor (data'.argument index)) f.new }
{
    if index == 0 {
        return write_word("val()", f);
    }
    write_word("val(", f)?;
    write_number(index, f)?;
    write_word(")", f)
}

fn write_accessor<W: Write>(accessor: &Accessor, f: &mut Formatter<W>) -> fmt::Result
    ensures { Prints W.write_str_gives f.old result (print_accessor (accessor_says accessor.now)) f.new }
{
    match accessor {
        Accessor::Argument(index) => write_index(*index, f),
        Accessor::Property(name) => write_name(name.as_str(), f),
        Accessor::Name => write_word("name()", f),
        Accessor::Type => write_word("tag()", f),
        Accessor::Arguments => write_word("values()", f),
        Accessor::Properties => write_word("props()", f),
    }
}

fn write_comparison<W: Write>(comparison: Comparison, f: &mut Formatter<W>) -> fmt::Result
    ensures { Prints W.write_str_gives f.old result (print_comparison comparison) f.new }
{
    let word = match comparison {
        Comparison::Equal => "=",
        Comparison::NotEqual => "!=",
        Comparison::Greater => ">",
        Comparison::GreaterOrEqual => ">=",
        Comparison::Less => "<",
        Comparison::LessOrEqual => "<=",
        Comparison::StartsWith => "^=",
        Comparison::EndsWith => "$=",
        Comparison::Contains => "*=",
    };
    write_word(word, f)
}

fn write_literal<W: Write>(literal: &Literal, f: &mut Formatter<W>) -> fmt::Result
    ensures { Prints W.write_str_gives f.old result (print_literal (literal_says literal.now)) f.new }
{
    match literal {
        Literal::Type(value_type) => write_type(value_type, f),
        Literal::Value(KdlValue::String(text)) => write_name(text.as_str(), f),
        Literal::Value(value) => value.fmt(f),
    }
}

/// Writes a comparison, with one space at each side, and what comes after it.
fn write_compared<W: Write>(
    comparison: Comparison,
    literal: &Literal,
    f: &mut Formatter<W>,
) -> fmt::Result
    ensures { Prints W.write_str_gives f.old result
        (print_compared comparison (literal_says literal.now)) f.new }
{
    write_word(" ", f)?;
    write_comparison(comparison, f)?;
    write_word(" ", f)?;
    write_literal(literal, f)
}

fn write_test<W: Write>(test: &Test, f: &mut Formatter<W>) -> fmt::Result
    ensures { Prints W.write_str_gives f.old result (print_test (test_says test.now)) f.new }
{
    match test {
        Test::Always => write_word("[]", f),
        Test::Has(accessor) => {
            write_word("[", f)?;
            write_accessor(accessor, f)?;
            write_word("]", f)
        }
        Test::Compares(accessor, comparison, literal) => {
            write_word("[", f)?;
            write_accessor(accessor, f)?;
            write_compared(*comparison, literal, f)?;
            write_word("]", f)
        }
    }
}

fn write_tests<W: Write>(tests: &[Test], f: &mut Formatter<W>) -> fmt::Result
    ensures { Prints W.write_str_gives f.old result (flat_map print_test (map test_says tests.now)) f.new }
{
    for test in tests {
        write_test(test, f)?;
    }
    Ok(())
}

fn write_node<W: Write>(node: &NodeTest, f: &mut Formatter<W>) -> fmt::Result
    ensures { Prints W.write_str_gives f.old result (print_node (node_test_says node.now)) f.new }
{
    if let Some(node_type) = &node.node_type {
        write_type(node_type, f)?;
    }
    if let Some(name) = &node.name {
        write_name(name.as_str(), f)?;
    }
    write_tests(&node.tests, f)
}

fn write_combinator<W: Write>(combinator: Combinator, f: &mut Formatter<W>) -> fmt::Result
    ensures { Prints W.write_str_gives f.old result (print_combinator combinator) f.new }
{
    let word = match combinator {
        Combinator::Child => ">",
        Combinator::Descendant => ">>",
        Combinator::NextSibling => "+",
        Combinator::LaterSibling => "++",
    };
    write_word(word, f)
}

/// Writes a step, with one space at each side of its operator.
fn write_step<W: Write>(step: &Step, f: &mut Formatter<W>) -> fmt::Result
    ensures { Prints W.write_str_gives f.old result
        (print_step step.now.combinator (node_test_says step.now.node)) f.new }
{
    write_word(" ", f)?;
    write_combinator(step.combinator, f)?;
    write_word(" ", f)?;
    write_node(&step.node, f)
}

fn write_first<W: Write>(first: &First, f: &mut Formatter<W>) -> fmt::Result
    ensures { Prints W.write_str_gives f.old result (print_selector (first_says first.now)) f.new }
{
    match first {
        First::Top => write_word("top()", f),
        First::Node(node) => write_node(node, f),
    }
}

fn write_selector<W: Write>(selector: &Selector, f: &mut Formatter<W>) -> fmt::Result
    ensures { Prints W.write_str_gives f.old result (print_selector (selector_says selector.now)) f.new }
{
    write_first(&selector.first, f)?;
    for step in &selector.steps {
        write_step(step, f)?;
    }
    Ok(())
}

/// Writes selectors, each with ` || ` before it.
fn write_others<W: Write>(selectors: &[Selector], f: &mut Formatter<W>) -> fmt::Result
    ensures { Prints W.write_str_gives f.old result (flat_map print_other (map selector_says selectors.now)) f.new }
{
    for selector in selectors {
        write_word(" || ", f)?;
        write_selector(selector, f)?;
    }
    Ok(())
}

/// Prints a text of the query: `Query::parse` reads the same query from it.
///
/// ```
/// let query = Query::parse(alloc, "a  > b[ val(0)>=0x10 ]||\"++\"")?;
/// let text = query.to_string(alloc)?; // `a > b[val() >= 16] || "++"`
/// ```
impl fmt::Display for Query {
    ghost output = { λ q. Some (encode_utf8_all (query_prints q)) };

    fn fmt<W: Write>(&self, f: &mut Formatter<W>) -> fmt::Result {
        let Some((first, others)) = self.selectors.split_first() else {
            return Ok(());
        };
        write_selector(first, f)?;
        write_others(others, f)
    }
}
