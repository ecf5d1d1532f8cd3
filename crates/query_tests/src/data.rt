//! Documents as lists of nodes with their paths, and random ones.

use crate::dice::Dice;
use std::alloc::{AllocError, Global};

/// Where a string may be written bare.
#[derive(Clone, Copy)]
pub enum Bare {
    Anywhere,
    InDocuments,
    Nowhere,
}

/// A string, and where it may be written bare.
#[derive(Clone, Copy)]
pub struct Word(pub &'static str, pub Bare);

/// A decimal: a sign, digits, and the power of ten by which they are multiplied.
#[derive(Clone, Copy)]
pub struct Number {
    pub is_negative: bool,
    pub digits: &'static str,
    pub power: i32,
}

/// A value: a string, a number, or a keyword as it is written.
#[derive(Clone, Copy)]
pub enum Value {
    Text(Word),
    Number(Number),
    Keyword(&'static str),
}

/// An argument, or a property if it has a key.
#[derive(Clone, Copy)]
pub struct Entry {
    pub key: Option<Word>,
    pub ty: Option<Word>,
    pub value: Value,
}

/// A node without its children, and its path.
#[derive(Drop)]
pub struct Spot {
    pub path: Vec<usize>,
    pub ty: Option<Word>,
    pub name: Word,
    pub entries: Vec<Entry>,
}

/// The word in place of one.
const ANY: Word = Word("a", Bare::Anywhere);

/// The strings. Those at the front are chosen more often.
static WORDS: [Word; 16] = [
    Word("a", Bare::Anywhere),
    Word("b", Bare::Anywhere),
    Word("ab", Bare::Anywhere),
    Word("val", Bare::Anywhere),
    Word("", Bare::Nowhere),
    Word("aba", Bare::Anywhere),
    Word(">", Bare::InDocuments),
    Word("name", Bare::Anywhere),
    Word("||", Bare::InDocuments),
    Word("a b", Bare::Nowhere),
    Word("top()", Bare::Nowhere),
    Word("ä-é", Bare::Anywhere),
    Word("b\"a", Bare::Nowhere),
    Word("a\nb", Bare::Nowhere),
    Word("true", Bare::Nowhere),
    Word("b\\", Bare::Nowhere),
];

/// The numbers without their signs.
static NUMBERS: [(&str, i32); 12] = [
    ("1", 0),
    ("0", 0),
    ("15", -1),
    ("2", 0),
    ("1", 2),
    ("1", -1),
    ("255", 0),
    ("1000000000000000000000000000000000000000000001", -45),
    ("170141183460469231731687303715884105727", 0),
    ("1", 38),
    ("1", 300),
    ("1", -300),
];

static KEYWORDS: [&str; 6] = ["#true", "#false", "#null", "#inf", "#-inf", "#nan"];

/// One of the first strings, of which there are so many.
fn early_word(dice: &mut Dice, count: usize) -> Word {
    match WORDS.get(dice.below(count)) {
        Some(word) => *word,
        None => ANY,
    }
}

/// A random string.
pub fn random_word(dice: &mut Dice) -> Word {
    let most = dice.below(WORDS.len());
    early_word(dice, most.saturating_add(1))
}

/// A random string in one of so many cases, and else none.
fn seldom_word(dice: &mut Dice, cases: usize) -> Option<Word> {
    if dice.one_in(cases) {
        Some(random_word(dice))
    } else {
        None
    }
}

/// A random value.
pub fn random_value(dice: &mut Dice) -> Value {
    match dice.below(5) {
        0 | 1 => Value::Text(random_word(dice)),
        2 => Value::Keyword(dice.text(&KEYWORDS)),
        _ => {
            let (digits, power) = dice.pick(&NUMBERS, ("0", 0));
            Value::Number(Number {
                is_negative: dice.one_in(4),
                digits,
                power,
            })
        }
    }
}

/// A random argument or property.
fn random_entry(dice: &mut Dice) -> Entry {
    Entry {
        key: match dice.below(6) {
            0 => Some(random_word(dice)),
            1 | 2 => Some(early_word(dice, 3)),
            _ => None,
        },
        ty: seldom_word(dice, 4),
        value: random_value(dice),
    }
}

/// A random node at that path.
fn random_spot(alloc: Global, dice: &mut Dice, path: Vec<usize>) -> Result<Spot, AllocError> {
    let mut entries = Vec::new(alloc);
    for _ in 0..dice.below(5) {
        entries.push(random_entry(dice))?;
    }
    Ok(Spot {
        path,
        ty: seldom_word(dice, 4),
        name: random_word(dice),
        entries,
    })
}

/// A path that may come directly after the other in a document: that of its first child, or of the next sibling of the
/// node at it or at one of the nodes around.
fn next_path(dice: &mut Dice, last: &Vec<usize>) -> Result<Vec<usize>, AllocError> {
    let mut path = last.clone()?;
    if path.is_empty() || (path.len() < 4 && dice.one_in(2)) {
        path.push(0)?;
        return Ok(path);
    }
    for _ in 0..dice.below(path.len()) {
        path.pop();
    }
    if let Some(index) = path.pop() {
        path.push(index.saturating_add(1))?;
    }
    Ok(path)
}

/// The nodes of a random document, in its order.
pub fn spots(alloc: Global, dice: &mut Dice) -> Result<Vec<Spot>, AllocError> {
    let mut spots = Vec::new(alloc);
    let mut path = Vec::new(alloc);
    for _ in 0..dice.below(12) {
        path = next_path(dice, &path)?;
        spots.push(random_spot(alloc, dice, path.clone()?)?)?;
    }
    Ok(spots)
}
