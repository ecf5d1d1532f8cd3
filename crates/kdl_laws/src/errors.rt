//! What `==` and clones of errors, and of their parts, mean.
#![tactic(auto, using(crate::proofs::Rules::errors))]

ghost use Rattle.kdl_laws.specs.Errors.{diagnostic_tree, error_tree, failure_tree};
ghost use Rattle.std.specs.Prelude.{◌≡◌, ◌↔◌, IfOk, IsTrue};

use kdl::{FloatFailure, KdlDiagnostic, KdlError, ParseFailure, Severity, SourceSpan};
use std::alloc::AllocError;

/// Two spans are equal exactly if their offsets and their lengths are equal.
pub fn equal_spans(a: &SourceSpan, b: &SourceSpan) -> bool
    ensures { IsTrue result ↔ (a.now ≡ b.now) }
{
    a == b
}

/// Two severities are equal exactly if they are the same.
pub fn equal_severities(a: &Severity, b: &Severity) -> bool
    ensures { IsTrue result ↔ (a.now ≡ b.now) }
{
    a == b
}

/// Two failures to create a float are equal exactly if they are the same.
pub fn equal_float_failures(a: &FloatFailure, b: &FloatFailure) -> bool
    ensures { IsTrue result ↔ (a.now ≡ b.now) }
{
    a == b
}

/// Two diagnostics are equal exactly if all their parts are equal, including the span and the text that was read.
pub fn equal_diagnostics(a: &KdlDiagnostic, b: &KdlDiagnostic) -> bool
    ensures { IsTrue result ↔ (diagnostic_tree a.now ≡ diagnostic_tree b.now) }
{
    a == b
}

/// Two errors are equal exactly if the texts that were read, and all diagnostics in order, are equal.
pub fn equal_errors(a: &KdlError, b: &KdlError) -> bool
    ensures { IsTrue result ↔ (error_tree a.now ≡ error_tree b.now) }
{
    a == b
}

/// Two failures to parse are equal exactly if both are allocation failures, or both have equal errors.
pub fn equal_failures(a: &ParseFailure, b: &ParseFailure) -> bool
    ensures { IsTrue result ↔ (failure_tree a.now ≡ failure_tree b.now) }
{
    a == b
}

/// A clone of a span is the span.
pub fn clone_span(span: &SourceSpan) -> Result<SourceSpan, AllocError>
    ensures { IfOk result (λ s. s ≡ span.now) }
{
    span.clone()
}

/// A clone of a severity is the severity.
pub fn clone_severity(severity: &Severity) -> Result<Severity, AllocError>
    ensures { IfOk result (λ s. s ≡ severity.now) }
{
    severity.clone()
}

/// A clone of a failure to create a float is the failure.
pub fn clone_float_failure(failure: &FloatFailure) -> Result<FloatFailure, AllocError>
    ensures { IfOk result (λ f. f ≡ failure.now) }
{
    failure.clone()
}

/// A clone of a diagnostic has all its parts, and so is equal to it.
pub fn clone_diagnostic(diagnostic: &KdlDiagnostic) -> Result<KdlDiagnostic, AllocError>
    ensures { IfOk result (λ d. diagnostic_tree d ≡ diagnostic_tree diagnostic.now) }
{
    diagnostic.clone()
}

/// A clone of an error has all its parts, and so is equal to it.
pub fn clone_error(error: &KdlError) -> Result<KdlError, AllocError>
    ensures { IfOk result (λ e. error_tree e ≡ error_tree error.now) }
{
    error.clone()
}

/// A clone of a failure to parse is the same failure, and so is equal to it.
pub fn clone_failure(failure: &ParseFailure) -> Result<ParseFailure, AllocError>
    ensures { IfOk result (λ f. failure_tree f ≡ failure_tree failure.now) }
{
    failure.clone()
}
