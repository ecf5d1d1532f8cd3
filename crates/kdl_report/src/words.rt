//! What a diagnostic says: its severity, message, label and help.

ghost use Rattle.kdl_report.specs.Said.{label_of, message_of, optional, word_of};
ghost use Rattle.std.specs.Prelude.{◌≡◌, chars, option_map, string_bytes};

use kdl_text::error::KdlDiagnostic;
use kdl_text::span::Severity;

/// The word for a severity.
pub(crate) fn word_of(severity: Severity) -> &'static str
    ensures { chars result.now ≡ word_of severity }
{
    match severity {
        Severity::Error => "error",
        Severity::Warning => "warning",
        Severity::Advice => "advice",
    }
}

/// The text of an optional string.
pub(crate) fn optional(text: &Option<String>) -> Option<&str>
    ensures text { option_map (λ s. chars s.now) result ≡ optional text.now }
    ensures bytes { option_map (λ s. s.now) result ≡ option_map string_bytes text.now }
{
    match text {
        Some(text) => Some(text.as_str()),
        None => None,
    }
}

/// The message, which is that of `Display` if the diagnostic has none.
pub(crate) fn message_of(fault: &KdlDiagnostic) -> &str
    ensures { chars result.now ≡ message_of fault.now }
{
    optional(&fault.message).unwrap_or("Unexpected error")
}

/// The label, which is empty if the diagnostic has none.
pub(crate) fn label_of(fault: &KdlDiagnostic) -> &str
    ensures { chars result.now ≡ label_of fault.now }
{
    optional(&fault.label).unwrap_or("")
}
