//! The tokens of a text, of which the next one is known before it is taken.

ghost use Rattle.json.specs.Reads.{token_of};
ghost use Rattle.json.specs.Token.{Token as Spec, begin_array, begin_object, end_array, end_object, key, string};
ghost use Rattle.kdl_json.specs.Reading.{left};
ghost use Rattle.kdl_json.specs.declared.failure.JsonFailure.TheVariants.{Unexpected};
ghost use Rattle.std.specs.Bool.{MatchBool};
ghost use Rattle.std.specs.Prelude.{◌≡◌, ◌≢◌, [], ◌∷◌, List, MatchOption, MatchResult, ℕ};

use crate::failure::{Expected, JsonFailure};
use json::{Reader, Token};

/// The tokens that are still to be read.
#[derive(Drop)]
pub struct Source<'a> {
    reader: Reader<'a>,
    next: Option<Token<'a>>,
    at: usize,
}

impl<'a> Source<'a> {
    /// All tokens of a reader.
    pub fn new(reader: Reader<'a>) -> Source<'a>
        ensures { left result ≡ reader.entry }
    {
        let mut reader = reader;
        let at = reader.offset();
        let next = reader.next();
        Source { reader, next, at }
    }

    /// Takes the next token, or returns `None` at the end of the text.
    pub fn take(&mut self) -> Option<Token<'a>>
        ensures { MatchOption result ((left self.old ≡ []) × (left self.new ≡ []))
            (λ t. left self.old ≡ token_of t ∷ left self.new) }
    {
        let token = self.next?;
        self.at = self.reader.offset();
        self.next = self.reader.next();
        Some(token)
    }

    /// Where the next token begins in the text, in bytes.
    pub fn at(&self) -> usize
        ensures { result ≡ self.now.at }
    {
        self.at
    }

    /// The failure that the next token is not what is expected.
    pub fn unexpected(&self, expected: Expected) -> JsonFailure
        ensures { result ≡ Unexpected self.now.at expected }
    {
        JsonFailure::Unexpected {
            at: self.at,
            expected,
        }
    }

    /// Takes the key if it is next, and returns whether it was.
    pub fn take_key(&mut self, name: &str) -> bool
        ensures { MatchBool result (left self.old ≡ key name.now ∷ left self.new)
            ((left self.new ≡ left self.old)
            × ((ts : List Spec) → left self.old ≢ key name.now ∷ ts)) }
    {
        let Some(Token::Key(key)) = self.next else {
            return false;
        };
        if key != name {
            return false;
        }
        self.take();
        true
    }

    /// Takes a `[`.
    pub fn begin_array(&mut self, expected: Expected) -> Result<(), JsonFailure>
        ensures { MatchResult result (λ _. left self.old ≡ begin_array ∷ left self.new)
            (λ e. (e ≡ Unexpected self.old.at expected)
            × ((ts : List Spec) → left self.old ≢ begin_array ∷ ts)) }
    {
        match self.next {
            Some(Token::BeginArray) => {
                self.take();
                Ok(())
            }
            _ => Err(self.unexpected(expected)),
        }
    }

    /// Takes a `]` if it is next, and returns whether it was.
    pub fn take_end_array(&mut self) -> bool
        ensures { MatchBool result (left self.old ≡ end_array ∷ left self.new)
            ((left self.new ≡ left self.old)
            × ((ts : List Spec) → left self.old ≢ end_array ∷ ts)) }
    {
        match self.next {
            Some(Token::EndArray) => {
                self.take();
                true
            }
            _ => false,
        }
    }

    /// Takes a `{`.
    pub fn begin_object(&mut self, expected: Expected) -> Result<(), JsonFailure>
        ensures { MatchResult result (λ _. left self.old ≡ begin_object ∷ left self.new)
            (λ e. (e ≡ Unexpected self.old.at expected)
            × ((ts : List Spec) → left self.old ≢ begin_object ∷ ts)) }
    {
        match self.next {
            Some(Token::BeginObject) => {
                self.take();
                Ok(())
            }
            _ => Err(self.unexpected(expected)),
        }
    }

    /// Takes a `}`.
    pub fn end_object(&mut self, expected: Expected) -> Result<(), JsonFailure>
        ensures { MatchResult result (λ _. left self.old ≡ end_object ∷ left self.new)
            (λ e. (e ≡ Unexpected self.old.at expected)
            × ((ts : List Spec) → left self.old ≢ end_object ∷ ts)) }
    {
        match self.next {
            Some(Token::EndObject) => {
                self.take();
                Ok(())
            }
            _ => Err(self.unexpected(expected)),
        }
    }

    /// Takes a string.
    pub fn string(&mut self, expected: Expected) -> Result<&'a str, JsonFailure>
        ensures { MatchResult result (λ s. left self.old ≡ string s.now ∷ left self.new)
            (λ e. (e ≡ Unexpected self.old.at expected)
            × ((s : List ℕ) (ts : List Spec) → left self.old ≢ string s ∷ ts)) }
    {
        match self.next {
            Some(Token::String(text)) => {
                self.take();
                Ok(text)
            }
            _ => Err(self.unexpected(expected)),
        }
    }

    /// Fails unless all tokens were taken.
    pub fn end(&self) -> Result<(), JsonFailure>
        ensures { MatchResult result (λ _. left self.now ≡ [])
            (λ e. (e ≡ Unexpected self.now.at Expected.EndOfText) × (left self.now ≢ [])) }
    {
        match self.next {
            None => Ok(()),
            Some(_) => Err(self.unexpected(Expected::EndOfText)),
        }
    }
}
