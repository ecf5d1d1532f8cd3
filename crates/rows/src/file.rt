//! Files of rows: blocks of lines with blank lines between them, each a row or a section.

use crate::fault::{Fault, Teller};
use crate::line::{Kind, Line};
use crate::row::Row;
use std::{fs, io, mem};

/// How many rows there were, and how many failed.
#[derive(Clone, Copy)]
pub struct Counts {
    pub rows: usize,
    pub failed: usize,
}

/// The current block, the place of its lines in the file, and the section whose lines it shares.
#[derive(Drop)]
struct Reader<'a> {
    tell: Teller<'a>,
    section: Vec<&'a str>,
    lines: Vec<&'a str>,
}

/// Runs the rows of a file.
pub fn run_file(
    rt: &HostRuntime,
    file: &str,
    is_wrong: bool,
    counts: &mut Counts,
) -> io::Result<()> {
    let text = fs::read_to_string(rt, file)?;
    let tell = Teller {
        rt,
        file,
        number: 0,
        is_wrong,
    };
    run_blocks(tell, &text, counts)
}

/// Runs the rows of a file's text. A line that begins with `#` is not part of a block.
fn run_blocks(tell: Teller<'_>, text: &str, counts: &mut Counts) -> io::Result<()> {
    let mut reader = Reader {
        tell,
        section: Vec::new(tell.alloc()),
        lines: Vec::new(tell.alloc()),
    };
    for (index, line) in text.lines().enumerate() {
        reader.add(index, line, counts)?;
    }
    reader.end_block(counts)
}

impl<'a> Reader<'a> {
    /// Takes the line of that index.
    fn add(&mut self, index: usize, line: &'a str, counts: &mut Counts) -> io::Result<()> {
        if line.is_empty() {
            return self.end_block(counts);
        }
        if line.starts_with('#') {
            return Ok(());
        }
        if self.lines.is_empty() {
            self.tell.number = index.saturating_add(1);
        }
        self.lines.push(line)?;
        Ok(())
    }

    /// Keeps the lines of a section, or runs the rows of another block, if there is one.
    fn end_block(&mut self, counts: &mut Counts) -> io::Result<()> {
        let Some(first) = self.lines.first() else {
            return Ok(());
        };
        if first.starts_with("section: ") {
            mem::swap(&mut self.section, &mut self.lines);
        } else {
            for line in self.section.iter().skip(1) {
                self.lines.push(line)?;
            }
            run_block(&self.tell, &self.lines, counts)?;
        }
        self.lines.clear();
        Ok(())
    }
}

/// Runs the rows of a block.
fn run_block<'a>(
    tell: &'a Teller<'a>,
    lines: &'a [&'a str],
    counts: &mut Counts,
) -> io::Result<()> {
    let row = Row { tell, lines };
    if let Err(fault) = row.is_whole() {
        return count(tell, Err(fault), counts);
    }
    for line in lines {
        let line = Line::of(line);
        if let Kind::Text(call) = line.kind() {
            count(tell, row.run(call, line.words()), counts)?;
        }
    }
    Ok(())
}

/// Counts a row, and reports it if it had to fail and did not.
fn count(tell: &Teller<'_>, outcome: Result<(), Fault>, counts: &mut Counts) -> io::Result<()> {
    counts.rows = counts.rows.saturating_add(1);
    match outcome {
        Err(Fault::Stopped(kind)) => return Err(io::Error::from(kind)),
        Err(Fault::Wrong) => counts.failed = counts.failed.saturating_add(1),
        Ok(()) if tell.is_wrong => {
            println!(tell.rt; "{}:{}: a wrong row does not fail", tell.file, tell.number)?;
        }
        Ok(()) => {}
    }
    Ok(())
}
