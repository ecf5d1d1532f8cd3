//! Queries as trees, and random ones.

use crate::data::{Bare, Entry, Spot, Value, Word, random_value, random_word};
use crate::dice::Dice;
use crate::relation::is_related;
use std::alloc::{AllocError, Global};

/// What a test looks at.
#[derive(Clone, Copy)]
pub enum Accessor {
    Argument(usize),
    Property(Word),
    Name,
    Type,
    Arguments,
    Properties,
}

/// What a comparison has at its right: a type, which may be any, or a value.
#[derive(Clone, Copy)]
pub enum Literal {
    Type(Option<Word>),
    Value(Value),
}

/// A test. A comparison is the text of its operator.
#[derive(Clone, Copy)]
pub enum Test {
    Always,
    Has(Accessor),
    Compares(Accessor, &'static str, Literal),
}

/// What a node has to meet. A type may be any.
#[derive(Drop)]
pub struct Want {
    pub ty: Option<Option<Word>>,
    pub name: Option<Word>,
    pub tests: Vec<Test>,
}

/// A selector: its beginning, or a shorter one, the text of an operator, and what comes after it.
#[derive(Drop)]
pub enum Chain {
    Top,
    Start(Want),
    Then(Box<Chain>, &'static str, Want),
}

static OPERATORS: [&str; 4] = [">", ">>", "+", "++"];

static COMPARISONS: [&str; 12] = [
    "=", "=", "=", "!=", ">", ">=", "<", "<=", "^=", "$=", "*=", "*=",
];

/// An entry of the node, if it has some.
fn entry_of(dice: &mut Dice, spot: &Spot) -> Option<Entry> {
    let at = dice.below(spot.entries.len());
    spot.entries.get(at).copied()
}

/// A random accessor, often of an entry of the node.
fn random_accessor(dice: &mut Dice, spot: &Spot) -> Accessor {
    match dice.below(8) {
        0 | 1 => Accessor::Argument(dice.below(3)),
        2 => Accessor::Name,
        3 => Accessor::Type,
        4 => Accessor::Arguments,
        5 => Accessor::Properties,
        _ => match entry_of(dice, spot) {
            Some(Entry { key: Some(key), .. }) => Accessor::Property(key),
            _ => Accessor::Property(random_word(dice)),
        },
    }
}

/// A random literal, often one that an entry of the node has.
fn random_literal(dice: &mut Dice, spot: &Spot, accessor: Accessor) -> Literal {
    let entry = entry_of(dice, spot);
    let known = match (accessor, entry) {
        (Accessor::Name, _) => Value::Text(spot.name),
        (_, Some(entry)) => entry.value,
        (_, None) => random_value(dice),
    };
    match (dice.below(8), entry) {
        (0, Some(entry)) => Literal::Type(entry.ty),
        (1, _) => Literal::Type(None),
        (2 | 3, _) => Literal::Value(Value::Text(random_word(dice))),
        (4, _) => Literal::Value(random_value(dice)),
        (_, _) => Literal::Value(known),
    }
}

/// A random test.
fn random_test(dice: &mut Dice, spot: &Spot) -> Test {
    let accessor = random_accessor(dice, spot);
    match dice.below(8) {
        0 => Test::Always,
        1 | 2 => Test::Has(accessor),
        _ => {
            let comparison = dice.text(&COMPARISONS);
            Test::Compares(accessor, comparison, random_literal(dice, spot, accessor))
        }
    }
}

/// Whether the comparison is allowed between the two.
fn is_comparable(accessor: Accessor, comparison: &str, literal: Literal) -> bool {
    let is_text = matches!(literal, Literal::Value(Value::Text(_)));
    let is_number = matches!(
        literal,
        Literal::Value(Value::Number(_) | Value::Keyword("#inf" | "#-inf" | "#nan"))
    );
    match (accessor, comparison) {
        (Accessor::Name | Accessor::Type, ">" | ">=" | "<" | "<=") => false,
        (Accessor::Name | Accessor::Type, _) => is_text,
        (_, "=" | "!=") => true,
        (_, "^=" | "$=" | "*=") => is_text,
        (_, _) => is_number,
    }
}

impl Test {
    /// Whether the test is allowed.
    fn is_allowed(&self) -> bool {
        match self {
            Test::Compares(accessor, comparison, literal) => {
                is_comparable(*accessor, comparison, *literal)
            }
            _ => true,
        }
    }
}

impl Chain {
    /// Whether all tests are allowed.
    pub fn is_allowed(&self) -> bool {
        match self {
            Chain::Top => true,
            Chain::Start(want) => want.is_allowed(),
            Chain::Then(before, _, want) => want.is_allowed() && before.is_allowed(),
        }
    }
}

/// A random test, which is seldom one that is not allowed.
fn mostly_allowed(dice: &mut Dice, spot: &Spot) -> Test {
    for _ in 0..8 {
        let test = random_test(dice, spot);
        if test.is_allowed() || dice.one_in(60) {
            return test;
        }
    }
    Test::Always
}

impl Want {
    /// Whether all tests are allowed.
    fn is_allowed(&self) -> bool {
        self.tests.iter().all(|test| test.is_allowed())
    }

    /// What the node, or one with another name, meets at times.
    fn new(alloc: Global, dice: &mut Dice, spot: &Spot) -> Result<Want, AllocError> {
        let mut tests = Vec::new(alloc);
        if dice.one_in(2) {
            for _ in 0..dice.below(3) {
                tests.push(mostly_allowed(dice, spot))?;
            }
        }
        let ty = match dice.below(12) {
            0 => Some(None),
            1 => Some(Some(random_word(dice))),
            2 | 3 if spot.ty.is_some() => Some(spot.ty),
            _ => None,
        };
        let name = match dice.below(6) {
            0 => Some(random_word(dice)),
            1 | 2 => None,
            _ => Some(spot.name),
        };
        if tests.is_empty() && ty.is_none() && name.is_none() {
            tests.push(Test::Always)?;
        }
        Ok(Want { ty, name, tests })
    }
}

/// An operator, mostly one that leads from the first path to the second if there is one.
fn operator(dice: &mut Dice, before: &[usize], path: &[usize]) -> &'static str {
    for _ in 0..6 {
        let operator = dice.text(&OPERATORS);
        if is_related(before, operator, path) {
            return operator;
        }
    }
    dice.text(&OPERATORS)
}

/// A random selector for some of the nodes, each after the one before it in the document.
fn random_chain(
    alloc: Global,
    dice: &mut Dice,
    spots: &[Spot],
    other: &Spot,
) -> Result<Chain, AllocError> {
    let mut at = dice.below(spots.len());
    let mut last = spots.get(at).unwrap_or(other);
    let mut chain = Chain::Start(Want::new(alloc, dice, last)?);
    if dice.one_in(6) {
        chain = Chain::Top;
        last = other;
    }
    let most = dice.below(4);
    for _ in 0..dice.below(most.saturating_add(1)) {
        at = at.saturating_add(dice.below(3)).saturating_add(1);
        let spot = spots.get(at).unwrap_or(other);
        let operator = operator(dice, &last.path, &spot.path);
        let want = Want::new(alloc, dice, spot)?;
        chain = Chain::Then(Box::new(alloc, chain)?, operator, want);
        last = spot;
    }
    Ok(chain)
}

/// The selectors of a random query for some of the nodes.
pub fn chains(alloc: Global, dice: &mut Dice, spots: &[Spot]) -> Result<Vec<Chain>, AllocError> {
    let other = Spot {
        path: Vec::new(alloc),
        ty: None,
        name: Word("b", Bare::Anywhere),
        entries: Vec::new(alloc),
    };
    let mut chains = Vec::new(alloc);
    chains.push(random_chain(alloc, dice, spots, &other)?)?;
    if dice.one_in(4) {
        chains.push(random_chain(alloc, dice, spots, &other)?)?;
    }
    Ok(chains)
}
