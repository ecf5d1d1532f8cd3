//! Reports of faults that no text has: without words, with controls in them, and milder than an error.

use kdl::{KdlDiagnostic, Severity, SourceSpan};
use kdl_report::{Lines, json, render, short};
use std::alloc::{AllocError, Global};
use std::rc::RcStr;
use std::test::Fail;

/// A fault of the first byte of a text.
fn fault_of(
    alloc: Global,
    severity: Severity,
    words: Option<(&str, &str)>,
) -> Result<KdlDiagnostic, AllocError> {
    let (message, label) = match words {
        Some((message, label)) => (
            Some(String::from_str(alloc, message)?),
            Some(String::from_str(alloc, label)?),
        ),
        None => (None, None),
    };
    Ok(KdlDiagnostic {
        input: RcStr::from_str(alloc, "a")?,
        span: SourceSpan { offset: 0, len: 1 },
        message,
        label,
        help: None,
        severity,
    })
}

#[test]
fn faults_without_words_are_shown(rt: HostRuntime) -> Result<(), Fail> {
    let alloc = rt.alloc();
    let fault = fault_of(alloc, Severity::Advice, None)?;
    let lines = Lines::new(alloc, "a")?;
    assert_eq!(rt;
        render(alloc, "f", &lines, &fault, false)?.as_str(),
        "advice: Unexpected error\n --> f:1:1\n  |\n1 | a\n  | ^\n"
    );
    assert_eq!(rt;
        json(alloc, "f", &lines, &fault)?.as_str(),
        "{\"file\":\"f\",\"line\":1,\"column\":1,\"offset\":0,\"length\":1,\"severity\":\"advice\",\
         \"message\":null,\"label\":null,\"help\":null,\"hint\":null}\n"
    );
    Ok(())
}

#[test]
fn words_are_shown_without_controls(rt: HostRuntime) -> Result<(), Fail> {
    let alloc = rt.alloc();
    let fault = fault_of(alloc, Severity::Warning, Some(("no\u{7}", "so\n")))?;
    let lines = Lines::new(alloc, "a")?;
    assert_eq!(rt;
        short(alloc, "f", &lines, &fault)?.as_str(),
        "f:1:1: warning: no\u{fffd}: so\u{fffd}\n"
    );
    let picture = render(alloc, "f", &lines, &fault, true)?;
    assert!(rt; picture.contains("\u{1b}[1;33m^ so\u{fffd}\u{1b}[0m\n"));
    Ok(())
}
