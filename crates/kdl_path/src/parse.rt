//! PATHs from their texts.
#![tactic(auto, using(crate::proofs::Rules::parse))]

ghost use Rattle.kdl_path.specs.Internal.PathReading.{AteDigit, AteSlash, IsEnd, Nothing, NumberOf, OneChar, Reads, StringFails, TargetRest, Whole};
ghost use Rattle.kdl_path.specs.PathText.{IsIndex, IsName, IsPath, IsStep, IsTarget, PathData, is_mark, path_says, step_says, target_says};
ghost use Rattle.kdl_text.specs.Chars as class;
ghost use Rattle.kdl_text.specs.Chars.{begins, starts};
ghost use Rattle.kdl_text.specs.Internal.Reading.{Moves};
ghost use Rattle.kdl_text.specs.Strings.{Run};
ghost use Rattle.kdl_value.specs.Tree.{text_of};
ghost use Rattle.std.specs.List.{list_all};
ghost use Rattle.std.specs.Prelude.{◌≡◌, ◌||◌, ◌==◌, ◌⊎◌, ◌↔◌, ◌∷◌, [], IfOk, IsTrue, true, false};
ghost use Rattle.std.specs.Str.{chars};

use crate::path::{Path, PathFailure, PathFault, Step, Target};
use kdl_text::chars::is_digit;
use kdl_text::cursor::{Cursor, Steps};
use kdl_text::strings::{StringFailure, StringFault, bare_string, quoted_string, raw_string};
use std::alloc::Global;

/// The failure of a string that was not read, which begins at that byte.
fn string_failure(failure: StringFailure, at: usize) -> PathFailure
    ensures { StringFails failure at result }
{
    match failure {
        StringFailure::Fault(StringFault::Unopened) => PathFailure::Syntax(PathFault::NoName, at),
        StringFailure::Fault(StringFault::Unclosed) => PathFailure::Syntax(PathFault::Unclosed, at),
        StringFailure::Fault(_) => PathFailure::Syntax(PathFault::NoString, at),
        StringFailure::Memory => PathFailure::Memory,
    }
}

/// Whether a bare name ends here.
fn ends_name(cursor: &mut Cursor) -> bool
    ensures result { IsTrue result ↔ ((cursor.old.rest ≡ []) ⊎ (starts is_mark cursor.old.rest ≡ true)) }
    ensures rest { cursor.new.rest ≡ cursor.old.rest }
    ensures moves { Moves cursor.old cursor.new }
{
    matches!(cursor.look(), None | Some('/' | '[' | ']' | '#'))
}

/// What is wrong if no bare name begins here.
fn bare_fault(cursor: &mut Cursor) -> PathFault
    ensures rest { cursor.new.rest ≡ cursor.old.rest }
    ensures moves { Moves cursor.old cursor.new }
{
    if ends_name(cursor) {
        PathFault::NoName
    } else {
        PathFault::NoString
    }
}

/// Reads the bare name that begins here.
fn bare_name(alloc: Global, cursor: &mut Cursor) -> Result<String, PathFailure>
    requires { starts (λ c. (c == 34 || c == 35) || c == 64) cursor.old.rest ≡ false }
    ensures { Reads IsName text_of result cursor.old cursor.new }
{
    let at = cursor.at();
    let fault = bare_fault(cursor);
    let Some(name) = bare_string(cursor) else {
        return Err(PathFailure::Syntax(fault, at));
    };
    if !ends_name(cursor) {
        return Err(PathFailure::Syntax(PathFault::NoString, at));
    }
    Ok(name.to_string(alloc)?)
}

/// Reads the name that begins here.
fn read_name(alloc: Global, cursor: &mut Cursor) -> Result<String, PathFailure>
    ensures { Reads IsName text_of result cursor.old cursor.new }
{
    let at = cursor.at();
    match cursor.look() {
        Some('"') => match quoted_string(alloc, cursor) {
            Ok(name) => Ok(name),
            Err(failure) => Err(string_failure(failure, at)),
        },
        Some('#') => match raw_string(alloc, cursor) {
            Ok(name) => Ok(name),
            Err(failure) => Err(string_failure(failure, at)),
        },
        Some('@') => Err(PathFailure::Syntax(PathFault::NoName, at)),
        _ => bare_name(alloc, cursor),
    }
}

/// Advances past a digit if one is here, and returns whether it is.
fn eat_digit(cursor: &mut Cursor) -> bool
    ensures ate { AteDigit result cursor.old.rest cursor.new.rest }
    ensures moves { Moves cursor.old cursor.new }
{
    match cursor.look() {
        Some(c) if is_digit(c) => {
            cursor.step();
            true
        }
        _ => false,
    }
}

/// Advances past all digits here.
fn skip_digits(cursor: &mut Cursor)
    ensures run { Run class.is_digit cursor.old.rest cursor.new.rest }
    ensures moves { Moves cursor.old cursor.new }
{
    'digits: while eat_digit(cursor) {}
}

/// The number that digits write, if there are some, and it has 64 bits.
fn number_of(digits: &str) -> Option<usize>
    requires { list_all class.is_digit (chars digits.now) ≡ true }
    ensures { NumberOf (chars digits.now) result }
{
    digits.parse::<usize>().ok()
}

/// Reads the index that begins here.
fn read_index(alloc: Global, fault: PathFault, cursor: &mut Cursor) -> Result<usize, PathFailure>
    ensures { Reads IsIndex (λ i. i) result cursor.old cursor.new }
{
    let start = cursor.checkpoint();
    skip_digits(cursor);
    let digits = cursor.slice(&start).to_string(alloc)?;
    match number_of(&digits) {
        Some(index) => Ok(index),
        None => Err(PathFailure::Syntax(fault, start.at())),
    }
}

/// Advances past the character c. Fails with the fault if it is not here.
fn expect(c: char, fault: PathFault, cursor: &mut Cursor) -> Result<(), PathFailure>
    ensures { Reads (OneChar c) (λ u. u) result cursor.old cursor.new }
{
    if cursor.eat(c) {
        Ok(())
    } else {
        Err(PathFailure::Syntax(fault, cursor.at()))
    }
}

/// Fails unless the text ends here.
fn expect_end(cursor: &mut Cursor) -> Result<(), PathFailure>
    ensures { Reads Nothing (λ u. u) result cursor.old cursor.new }
{
    match cursor.look() {
        None => Ok(()),
        Some(_) => Err(PathFailure::Syntax(PathFault::More, cursor.at())),
    }
}

/// Reads a name, and the index after it if there is one.
fn read_step(alloc: Global, cursor: &mut Cursor) -> Result<Step, PathFailure>
    ensures { Reads IsStep step_says result cursor.old cursor.new }
{
    let name = read_name(alloc, cursor)?;
    if !cursor.eat('[') {
        return Ok(Step { name, index: None });
    }
    let index = read_index(alloc, PathFault::NoIndex, cursor)?;
    expect(']', PathFault::NoIndex, cursor)?;
    Ok(Step {
        name,
        index: Some(index),
    })
}

/// Reads the rest of `#N`, after its `#`, up to the end.
fn read_argument(alloc: Global, cursor: &mut Cursor) -> Result<Target, PathFailure>
    ensures { Reads (Whole (TargetRest 35)) target_says result cursor.old cursor.new }
{
    let index = read_index(alloc, PathFault::NoArgument, cursor)?;
    expect_end(cursor)?;
    Ok(Target::Argument(index))
}

/// Reads the rest of `@KEY`, after its `@`, up to the end.
fn read_property(alloc: Global, cursor: &mut Cursor) -> Result<Target, PathFailure>
    ensures { Reads (Whole (TargetRest 64)) target_says result cursor.old cursor.new }
{
    let name = read_name(alloc, cursor)?;
    expect_end(cursor)?;
    Ok(Target::Property(name))
}

/// Reads a target, up to the end.
fn read_target(alloc: Global, cursor: &mut Cursor) -> Result<Target, PathFailure>
    ensures { Reads (Whole IsTarget) target_says result cursor.old cursor.new }
{
    if cursor.eat('@') {
        return read_property(alloc, cursor);
    }
    if cursor.eat('#') {
        return read_argument(alloc, cursor);
    }
    Err(PathFailure::Syntax(PathFault::NoEntry, cursor.at()))
}

/// Advances past a `/` without `@` after it if one is here, and returns whether it is.
fn eat_slash(cursor: &mut Cursor) -> bool
    ensures ate { AteSlash result cursor.old.rest cursor.new.rest }
    ensures moves { Moves cursor.old cursor.new }
{
    if cursor.looks_two('/', '@') {
        return false;
    }
    cursor.eat('/')
}

/// Reads what follows the last step, up to the end.
fn read_end(alloc: Global, cursor: &mut Cursor) -> Result<Target, PathFailure>
    requires { (t : class.Text) → cursor.old.rest ≡ 47 ∷ t → begins 64 t ≡ true }
    ensures { Reads (Whole IsEnd) target_says result cursor.old cursor.new }
{
    if cursor.eat_two('/', '@') {
        return read_property(alloc, cursor);
    }
    if cursor.eat('#') {
        return read_argument(alloc, cursor);
    }
    expect_end(cursor)?;
    Ok(Target::Node)
}

/// Reads a PATH that is not the document.
fn read_path(alloc: Global, cursor: &mut Cursor) -> Result<Path, PathFailure>
    requires { cursor.old.rest ≡ 47 ∷ [] → ⊥ }
    ensures reads { Reads (Whole IsPath) path_says result cursor.old cursor.new }
    ensures only { IfOk result (λ p. (x : PathData) → IsPath cursor.old.rest x → x ≡ path_says p) }
{
    let mut steps = Vec::new(alloc);
    steps.push(read_step(alloc, cursor)?)?;
    'steps: while eat_slash(cursor) {
        steps.push(read_step(alloc, cursor)?)?;
    }
    let target = read_end(alloc, cursor)?;
    Ok(Path { steps, target })
}

/// Whether the text is `/` alone.
fn is_document(cursor: &mut Cursor) -> bool
    ensures result { IsTrue result ↔ (cursor.old.rest ≡ 47 ∷ []) }
    ensures rest { cursor.new.rest ≡ cursor.old.rest }
    ensures moves { Moves cursor.old cursor.new }
{
    cursor.look() == Some('/') && cursor.look_second().is_none()
}

impl Target {
    ghost use Rattle.kdl_path.specs.PathText.{IsSyntax, IsTarget, LocatesFault, TargetData, target_says};
    ghost use Rattle.std.specs.Prelude.{IfOk};
    ghost use Rattle.std.specs.Str.{chars};

    /// Reads the entry that a text names, as at the end of a PATH: `#N`, the argument at that index, or `@KEY`, the last
    /// property of that name.
    ///
    /// Fails with the first fault and its byte in the text, as `Path::parse` does, or if the text begins with neither `#`
    /// nor `@`.
    ///
    /// ```
    /// let target = Target::parse(alloc, "@host")?; // Target::Property("host")
    /// ```
    pub fn parse(alloc: Global, text: &str) -> Result<Target, PathFailure>
        // The target is what the grammar derives,
        ensures found { IfOk result (λ t. IsTarget (chars text.now) (target_says t)) }
        // and it derives nothing else.
        ensures only { IfOk result (λ t. (x : TargetData) → IsTarget (chars text.now) x → x ≡ target_says t) }
        // A refused text is not derived, and the byte of the fault is in it.
        ensures refused { IsSyntax result → (x : TargetData) → IsTarget (chars text.now) x → ⊥ }
        ensures located { LocatesFault (chars text.now) result }
    {
        let mut cursor = Cursor::new(text, Steps::new());
        read_target(alloc, &mut cursor)
    }
}

impl Path {
    ghost use Rattle.kdl_path.specs.PathText.{IsPath, IsSyntax, LocatesFault, PathData, path_says};
    ghost use Rattle.std.specs.Prelude.{IfOk};
    ghost use Rattle.std.specs.Str.{chars};

    /// Reads a PATH.
    ///
    /// Fails with the first fault and its byte in the text: a name is missing or is no string, a string in quotes does
    /// not end, a number is missing or does not fit, or more text follows.
    ///
    /// ```
    /// let path = Path::parse(alloc, "server[2]/@host")?; // the property `host` of the third `server`
    /// ```
    pub fn parse(alloc: Global, text: &str) -> Result<Path, PathFailure>
        // The PATH is what the grammar derives,
        ensures found { IfOk result (λ p. IsPath (chars text.now) (path_says p)) }
        // and it derives nothing else.
        ensures only { IfOk result (λ p. (x : PathData) → IsPath (chars text.now) x → x ≡ path_says p) }
        // A refused text is not derived, and the byte of the fault is in it.
        ensures refused { IsSyntax result → (x : PathData) → IsPath (chars text.now) x → ⊥ }
        ensures located { LocatesFault (chars text.now) result }
    {
        let mut cursor = Cursor::new(text, Steps::new());
        if is_document(&mut cursor) {
            return Ok(Path {
                steps: Vec::new(alloc),
                target: Target::Node,
            });
        }
        read_path(alloc, &mut cursor)
    }
}
