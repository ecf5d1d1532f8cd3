//! The notation of texts in rows: marks for invisible characters, repeated pieces, and the place of a member or of the
//! row's own text.

use crate::fault::{Fault, Teller};
use crate::line::Line;
use std::alloc::AllocError;

/// The texts in place of `◊` and `□`, and what reports that there is none.
#[derive(Clone, Copy)]
pub struct Fills<'a> {
    pub tell: &'a Teller<'a>,
    pub member: Option<&'a str>,
    pub own: Option<&'a str>,
}

impl Fills<'_> {
    /// Returns the text that the notation denotes.
    pub fn decoded(&self, notation: &str) -> Result<String, Fault> {
        let mut text = String::new(self.tell.alloc());
        self.push(&mut text, notation)?;
        Ok(text)
    }

    /// The line with its label and its text decoded, and `: ` between them.
    pub fn line(&self, notation: &str) -> Result<String, Fault> {
        let mut line = String::new(self.tell.alloc());
        self.push_line(&mut line, Line::of(notation))?;
        Ok(line)
    }

    /// Adds the parts of a line to the text.
    fn push_line(&self, text: &mut String, line: Line<'_>) -> Result<(), Fault> {
        self.push(text, line.label)?;
        if let Some(words) = line.text {
            text.push_str(": ")?;
            self.push(text, words)?;
        }
        Ok(())
    }

    /// Appends what the notation denotes to the text.
    fn push(&self, text: &mut String, notation: &str) -> Result<(), Fault> {
        let mut decoder = Decoder {
            fills: *self,
            notation,
            part: Part::Plain,
            start: 0,
            count: 0,
        };
        for (at, c) in notation.char_indices() {
            decoder.take(text, at, c)?;
        }
        match (decoder.part, decoder.count) {
            (Part::Plain, 0) => Ok(()),
            (_, _) => Err(decoder.wrong("a mark without its end in ")),
        }
    }
}

/// What is read of a notation.
#[derive(Clone, Copy)]
enum Part {
    /// Characters, and marks of one character.
    Plain,
    /// The count of a repeated piece, which begins there.
    Count(usize),
    /// The code point of a character, which begins there.
    Code(usize),
}

/// How far a notation is read.
#[derive(Clone, Copy)]
struct Decoder<'a> {
    fills: Fills<'a>,
    notation: &'a str,
    part: Part,
    /// Where the repeated piece begins in the text, and how often it is repeated: 0 if there is none.
    start: usize,
    count: u32,
}

impl Decoder<'_> {
    /// Returns the fault that this is wrong with the notation.
    fn wrong(&self, what: &str) -> Fault {
        self.fills.tell.wrong(what, self.notation)
    }

    /// The notation between the places.
    fn between(&self, start: usize, end: usize) -> &str {
        match self.notation.get(start..end) {
            Some(part) => part,
            None => "",
        }
    }

    /// Takes the character at that place.
    fn take(&mut self, text: &mut String, at: usize, c: char) -> Result<(), Fault> {
        match (self.part, c) {
            (Part::Plain, _) => self.take_plain(text, at, c),
            (Part::Count(start), ':') => self.take_count(text, start, at),
            (Part::Code(start), '⟩') => self.take_code(text, start, at),
            (_, _) => Ok(()),
        }
    }

    /// Takes a character, or a mark of one, or what begins or ends another mark.
    fn take_plain(&mut self, text: &mut String, at: usize, c: char) -> Result<(), Fault> {
        let following = at.saturating_add(c.len_utf8());
        match c {
            '⟨' => self.part = Part::Code(following),
            '⟦' if self.count == 0 => self.part = Part::Count(following),
            '⟧' if self.count > 0 => self.repeat(text)?,
            '⟦' | '⟧' | '⟩' => return Err(self.wrong("a mark out of its place in ")),
            '◊' => self.fill(text, self.fills.member)?,
            '□' => self.fill(text, self.fills.own)?,
            _ => text.push(plain(c))?,
        }
        Ok(())
    }

    /// Takes the count of a repeated piece, which begins after it.
    fn take_count(&mut self, text: &String, start: usize, end: usize) -> Result<(), Fault> {
        match self.between(start, end).parse::<u32>() {
            Ok(count) if count > 0 => {
                self.part = Part::Plain;
                self.start = text.len();
                self.count = count;
                Ok(())
            }
            _ => Err(self.wrong("no count of a piece in ")),
        }
    }

    /// Takes the code point of a character.
    fn take_code(&mut self, text: &mut String, start: usize, end: usize) -> Result<(), Fault> {
        let Some(c) = character(self.between(start, end)) else {
            return Err(self.wrong("no such character in "));
        };
        self.part = Part::Plain;
        text.push(c)?;
        Ok(())
    }

    /// Repeats the piece that ends the text.
    fn repeat(&mut self, text: &mut String) -> Result<(), Fault> {
        let alloc = self.fills.tell.alloc();
        let piece = String::from_str(alloc, text.get(self.start..).unwrap_or(""))?;
        for _ in 1..self.count {
            text.push_str(&piece)?;
        }
        self.count = 0;
        Ok(())
    }

    /// Adds what fills a place to the text.
    fn fill(&self, text: &mut String, fill: Option<&str>) -> Result<(), Fault> {
        let Some(fill) = fill else {
            return Err(self.wrong("a place that nothing fills in "));
        };
        text.push_str(fill)?;
        Ok(())
    }
}

/// The character with that code point, in hexadecimal digits.
fn character(code: &str) -> Option<char> {
    match u32::from_str_radix(code, 16) {
        Ok(code) => char::from_u32(code),
        Err(_) => None,
    }
}

/// The character that a mark, or another character, denotes.
fn plain(c: char) -> char {
    match c {
        '⏎' => '\n',
        '⇥' => '\t',
        '␍' => '\r',
        '␠' => ' ',
        _ => c,
    }
}

/// Appends words and the notation of the text to a message, or the notation of a prefix if the text is long.
pub fn encode(message: &mut String, words: &str, text: &str) -> Result<(), AllocError> {
    message.push_str(words)?;
    for c in text.chars().take(400) {
        push_mark(message, c)?;
    }
    Ok(())
}

/// Adds the notation of a character to a message.
fn push_mark(message: &mut String, c: char) -> Result<(), AllocError> {
    match mark(c) {
        Some(mark) => message.push(mark),
        None => write!(message, "⟨{:x}⟩", u32::from(c)),
    }
}

/// The mark of the notation for the character, if it has one.
fn mark(c: char) -> Option<char> {
    match c {
        '\n' => Some('⏎'),
        '\t' => Some('⇥'),
        '\r' => Some('␍'),
        ' '..='~' => Some(c),
        _ => None,
    }
}
