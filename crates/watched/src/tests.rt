//! Writes that are interrupted.

use crate::{Retrying, Watched};
use std::io;
use std::io::{ErrorKind, Write};
use std::test::Fail;

/// A writer that takes one byte at a time, each after some writes that are interrupted.
#[derive(Drop)]
struct Interrupted {
    each: usize,
    left: usize,
}

impl Write for Interrupted {
    fn write(&mut self, buf: &[u8]) -> io::Result<usize> {
        if self.left > 0 {
            self.left -= 1;
            return Err(io::Error::from(ErrorKind::Interrupted));
        }
        self.left = self.each;
        Ok(buf.len().min(1))
    }

    fn flush(&mut self) -> io::Result<()> {
        Ok(())
    }
}

#[test]
fn interrupted_writes_are_repeated(rt: HostRuntime) -> Result<(), Fail> {
    for (each, fails) in [(0, false), (999, false), (1000, true)] {
        let mut writer = Watched::new(Retrying::new(Interrupted { each, left: each }));
        assert_eq!(rt; writer.write_whole(b"ab").is_err(), fails);
        assert_eq!(rt; writer.failed(), fails);
    }
    Ok(())
}

#[test]
fn an_interrupted_write_is_a_failed_one(rt: HostRuntime) -> Result<(), Fail> {
    let mut writer = Watched::new(Interrupted { each: 1, left: 0 });
    assert!(rt; writer.write_line(&[b"a", b"\n"]).is_err());
    assert!(rt; writer.failed());
    Ok(())
}
