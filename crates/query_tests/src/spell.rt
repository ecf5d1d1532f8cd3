//! Documents and queries as texts, each piece in a random spelling.

use crate::ask::{Accessor, Chain, Literal, Test, Want};
use crate::data::{Bare, Entry, Number, Spot, Value, Word};
use crate::dice::Dice;
use std::alloc::{AllocError, Global};

/// What a text is.
#[derive(Clone, Copy)]
pub enum Language {
    Document,
    Query,
}

/// A text that grows.
#[derive(Drop)]
pub struct Writer<'a> {
    alloc: Global,
    dice: &'a mut Dice,
    language: Language,
    text: String,
}

/// What may be between two entries.
static GAPS: [&str; 8] = [
    " ",
    " ",
    " ",
    "  ",
    " /* c */ ",
    " \\\n",
    " /-9 ",
    " /-a=9\t",
];

/// What may end a node.
static ENDS: [&str; 4] = [";", "\n", " // c\n", " ; /-b { a; }\n"];

/// What may be between two pieces of a query, and what has to be there after a bare name.
static SPACES: [&str; 6] = ["", "", " ", "\n", "/* c */", " \\\n"];

static SOME_SPACES: [&str; 5] = [" ", " ", "\t", "\n", "/* c */"];

/// Whether the word may be bare in the language.
fn may_be_bare(word: Word, language: Language) -> bool {
    match (word.1, language) {
        (Bare::Anywhere, _) | (Bare::InDocuments, Language::Document) => true,
        (_, _) => false,
    }
}

impl<'a> Writer<'a> {
    /// An empty text.
    pub fn new(alloc: Global, dice: &'a mut Dice, language: Language) -> Writer<'a> {
        Writer {
            alloc,
            dice,
            language,
            text: String::new(alloc),
        }
    }

    /// The text.
    pub fn into_text(self) -> String {
        self.text
    }

    /// Adds the characters of a text.
    fn add(&mut self, text: &str) -> Result<(), AllocError> {
        self.text.push_str(text)?;
        Ok(())
    }

    /// Adds one of the texts.
    fn add_one(&mut self, texts: &[&'static str]) -> Result<(), AllocError> {
        let text = self.dice.text(texts);
        self.add(text)
    }

    /// Adds a quoted string, some of its characters as escapes.
    fn quote(&mut self, word: &str) -> Result<(), AllocError> {
        self.add("\"")?;
        for c in word.chars() {
            let code = u32::from(c);
            if c == '\n' {
                self.add("\\n")?;
            } else if c == '"' || c == '\\' || self.dice.one_in(8) {
                write!(&mut self.text, "\\u{{{code:x}}}")?;
            } else {
                self.text.push(c)?;
            }
        }
        self.add("\"")
    }

    /// Adds a string.
    fn word(&mut self, word: Word) -> Result<(), AllocError> {
        let text = word.0;
        if may_be_bare(word, self.language) && !self.dice.one_in(4) {
            return self.add(text);
        }
        match self.dice.below(4) {
            0 if !text.contains('\n') => write!(&mut self.text, "#\"{text}\"#"),
            1 => write!(&mut self.text, "##\"\"\"\n{text}\n\"\"\"##"),
            _ => self.quote(text),
        }
    }

    /// Adds digits, some with an underscore after them.
    fn digits(&mut self, digits: &str) -> Result<(), AllocError> {
        for digit in digits.chars() {
            self.text.push(digit)?;
            if self.dice.one_in(12) {
                self.text.push('_')?;
            }
        }
        Ok(())
    }

    /// Adds a whole number in one of the other bases, and returns whether it is one.
    fn based(&mut self, number: Number) -> Result<bool, AllocError> {
        if number.power != 0 || self.dice.one_in(2) {
            return Ok(false);
        }
        let Ok(whole) = number.digits.parse::<u64>() else {
            return Ok(false);
        };
        match self.dice.below(3) {
            0 => write!(&mut self.text, "0x{whole:x}")?,
            1 => write!(&mut self.text, "0o{whole:o}")?,
            _ => write!(&mut self.text, "0b{whole:b}")?,
        }
        Ok(true)
    }

    /// Adds a number.
    fn number(&mut self, number: Number) -> Result<(), AllocError> {
        if number.is_negative {
            self.add("-")?;
        } else if self.dice.one_in(8) {
            self.add("+")?;
        }
        if self.based(number)? {
            return Ok(());
        }
        self.decimal(number)
    }

    /// Adds a number in base 10, as its digits and some zeros, with a point and an exponent where they are needed.
    fn decimal(&mut self, number: Number) -> Result<(), AllocError> {
        let zeros = self.dice.below(3);
        let after_point = self.dice.below(3);
        let mut digits = String::new(self.alloc);
        for _ in 0..after_point {
            digits.push('0')?;
        }
        digits.push_str(number.digits)?;
        for _ in 0..zeros {
            digits.push('0')?;
        }
        let place = digits.len().saturating_sub(after_point);
        self.digits(digits.get(..place).unwrap_or("0"))?;
        if after_point > 0 {
            self.add(".")?;
            self.digits(digits.get(place..).unwrap_or("0"))?;
        }
        let exponent = number
            .power
            .saturating_add(after_point as i32)
            .saturating_sub(zeros as i32);
        if exponent != 0 || self.dice.one_in(4) {
            self.add_one(&["e", "E"])?;
            write!(&mut self.text, "{exponent}")?;
        }
        Ok(())
    }

    /// Adds a value.
    fn value(&mut self, value: Value) -> Result<(), AllocError> {
        match value {
            Value::Text(word) => self.word(word),
            Value::Number(number) => self.number(number),
            Value::Keyword(keyword) => self.add(keyword),
        }
    }

    /// Adds an entry.
    fn entry(&mut self, entry: Entry) -> Result<(), AllocError> {
        if let Some(key) = entry.key {
            self.word(key)?;
            self.add_one(&["=", "=", " =", "= "])?;
        }
        self.ty(entry.ty)?;
        self.value(entry.value)
    }

    /// Adds the type of a node or of an entry, if it has one.
    fn ty(&mut self, ty: Option<Word>) -> Result<(), AllocError> {
        if let Some(ty) = ty {
            self.add_one(&["(", "( "])?;
            self.word(ty)?;
            self.add_one(&[")", " )"])?;
        }
        Ok(())
    }

    /// Adds a node without its children.
    fn spot(&mut self, spot: &Spot) -> Result<(), AllocError> {
        self.ty(spot.ty)?;
        self.word(spot.name)?;
        for entry in &spot.entries {
            self.add_one(&GAPS)?;
            self.entry(*entry)?;
        }
        Ok(())
    }

    /// Adds what is between two nodes, of which the second is at this level, and the first at the other.
    fn between(&mut self, level: usize, last: usize) -> Result<(), AllocError> {
        if level > last {
            return self.add_one(&[" {", "{\n", " {/* c */"]);
        }
        if self.dice.one_in(6) {
            self.add_one(&[" {}", "{ /-a; }"])?;
        }
        for _ in level..last {
            self.add_one(&ENDS)?;
            self.add("}")?;
        }
        self.add_one(&ENDS)
    }

    /// Adds the nodes of a document.
    pub fn document(&mut self, spots: &[Spot]) -> Result<(), AllocError> {
        let mut last = 0;
        for spot in spots {
            let level = spot.path.len();
            if last > 0 {
                self.between(level, last)?;
            }
            self.spot(spot)?;
            last = level;
        }
        if last > 0 {
            self.between(1, last)?;
        }
        Ok(())
    }

    /// Adds spaces, which are needed after a bare name.
    fn spaces(&mut self) -> Result<(), AllocError> {
        match self.text.chars().next_back() {
            None | Some(')' | ']' | '[' | '(' | '"' | '#' | '>' | '+' | '|') => self.add_one(
                &SPACES,
            ),
            Some(_) => self.add_one(&SOME_SPACES),
        }
    }

    /// Adds a type of a query.
    fn type_test(&mut self, test: Option<Word>) -> Result<(), AllocError> {
        self.add_one(&["(", "( ", "(\n"])?;
        if let Some(ty) = test {
            self.word(ty)?;
        }
        self.add_one(&[")", " )"])
    }

    /// Adds an accessor.
    fn accessor(&mut self, accessor: Accessor) -> Result<(), AllocError> {
        match accessor {
            Accessor::Argument(0) => self.add_one(&["val()", "val(0)", "val( )", "val( 0 )"]),
            Accessor::Argument(index) => write!(&mut self.text, "val({index})"),
            Accessor::Property(name) if self.dice.one_in(2) => self.word(name),
            Accessor::Property(name) => {
                self.add_one(&["prop(", "prop( "])?;
                self.word(name)?;
                self.add_one(&[")", " )"])
            }
            Accessor::Name => self.add("name()"),
            Accessor::Type => self.add("tag()"),
            Accessor::Arguments => self.add("values()"),
            Accessor::Properties => self.add("props()"),
        }
    }

    /// Adds a comparison and its literal.
    fn comparison(&mut self, comparison: &str, literal: Literal) -> Result<(), AllocError> {
        if comparison != "=" || self.dice.one_in(2) {
            self.spaces()?;
        }
        self.add(comparison)?;
        self.add_one(&SPACES)?;
        match literal {
            Literal::Type(test) => self.type_test(test),
            Literal::Value(value) => self.value(value),
        }
    }

    /// Adds a test.
    fn test(&mut self, test: Test) -> Result<(), AllocError> {
        self.add("[")?;
        self.add_one(&SPACES)?;
        match test {
            Test::Always => {}
            Test::Has(accessor) => self.accessor(accessor)?,
            Test::Compares(accessor, comparison, literal) => {
                self.accessor(accessor)?;
                self.comparison(comparison, literal)?;
            }
        }
        self.add_one(&SPACES)?;
        self.add("]")
    }

    /// Adds what a node has to meet.
    fn want(&mut self, want: &Want) -> Result<(), AllocError> {
        if let Some(test) = want.ty {
            self.type_test(test)?;
        }
        if let Some(name) = want.name {
            self.word(name)?;
        }
        for test in &want.tests {
            self.test(*test)?;
        }
        Ok(())
    }

    /// Adds a selector.
    fn chain(&mut self, chain: &Chain) -> Result<(), AllocError> {
        match chain {
            Chain::Top => self.add_one(&["top()", "top( )"]),
            Chain::Start(want) => self.want(want),
            Chain::Then(before, operator, want) => {
                self.chain(before)?;
                self.spaces()?;
                self.add(operator)?;
                self.add_one(&SPACES)?;
                self.want(want)
            }
        }
    }

    /// Adds the selectors of a query.
    pub fn query(&mut self, chains: &[Chain]) -> Result<(), AllocError> {
        self.add_one(&SPACES)?;
        for (at, chain) in chains.iter().enumerate() {
            if at > 0 {
                self.spaces()?;
                self.add("||")?;
                self.add_one(&SPACES)?;
            }
            self.chain(chain)?;
        }
        self.add_one(&SPACES)
    }
}
