//! Differences between texts that are not layouts of each other, as `diff -u` shows them.

use kdl_report::unified;
use std::test::Fail;

#[test]
fn differences_are_shown(rt: HostRuntime) -> Result<(), Fail> {
    for (old, new, want) in [
        (
            "a\nb\n",
            "",
            "--- f.kdl\n+++ f.kdl\n@@ -1,2 +0,0 @@\n-a\n-b\n",
        ),
        (
            "a",
            "b",
            "--- f.kdl\n+++ f.kdl\n@@ -1 +1 @@\n-a\n\\ No newline at end of file\n+b\n\\ No newline at end of file\n",
        ),
        (
            "1\n2\n3\n4\n5\n",
            "1\n2\nx\ny\n3\n4\n5\n",
            "--- f.kdl\n+++ f.kdl\n@@ -1,5 +1,7 @@\n 1\n 2\n+x\n+y\n 3\n 4\n 5\n",
        ),
    ] {
        let shown = unified(rt.alloc(), "f.kdl", old, new)?;
        assert_eq!(rt; shown.as_str(), want);
    }
    Ok(())
}
