use anyhow::{Result, bail};
use std::alloc::Global;

/// Lines that have a name, so that more than one case can have them.
#[derive(Drop)]
struct Part<'a> {
    name: &'a str,
    lines: Vec<&'a str>,
}

/// A file of cases: the lines that are read before each case, and the lines of each case, the first of which
/// has its title.
#[derive(Drop)]
pub struct CaseFile<'a> {
    alloc: Global,
    pub head: Vec<&'a str>,
    pub cases: Vec<Vec<&'a str>>,
    parts: Vec<Part<'a>>,
    open: Option<Part<'a>>,
}

impl<'a> CaseFile<'a> {
    /// Reads a file. The lines of `names` stand in front of its own.
    pub fn read(alloc: Global, names: &'a str, text: &'a str) -> Result<CaseFile<'a>> {
        let mut file = CaseFile {
            alloc,
            head: Vec::new(alloc),
            cases: Vec::new(alloc),
            parts: Vec::new(alloc),
            open: None,
        };
        for line in names.lines() {
            file.take(line)?;
        }
        for line in text.lines() {
            file.take(line)?;
        }
        if let Some(part) = &file.open {
            let name = part.name;
            bail!("part {name} has no end");
        }
        Ok(file)
    }

    fn take(&mut self, line: &'a str) -> Result<()> {
        if line.is_empty() || line.starts_with('#') {
            return Ok(());
        }
        if let Some(part) = self.open.take() {
            return self.take_of_part(part, line);
        }
        if let Some(name) = line.strip_prefix("part ") {
            let lines = Vec::new(self.alloc);
            self.open = Some(Part { name, lines });
            return Ok(());
        }
        if line.starts_with("case ") {
            let lines = Vec::new(self.alloc);
            self.cases.push(lines)?;
        }
        match self.cases.last_mut() {
            Some(case) => push(&self.parts, case, line),
            None => push(&self.parts, &mut self.head, line),
        }
    }

    // A line of the part that is open, which it may end.
    fn take_of_part(&mut self, part: Part<'a>, line: &'a str) -> Result<()> {
        let mut part = part;
        if line == "end" {
            self.parts.push(part)?;
        } else {
            push(&self.parts, &mut part.lines, line)?;
            self.open = Some(part);
        }
        Ok(())
    }
}

// Adds a line, or in place of `do NAME` the lines of that part.
fn push<'a>(parts: &[Part<'a>], lines: &mut Vec<&'a str>, line: &'a str) -> Result<()> {
    let Some(name) = line.strip_prefix("do ") else {
        lines.push(line)?;
        return Ok(());
    };
    for part in parts {
        if part.name == name {
            lines.extend_from_slice(part.lines.as_slice())?;
            return Ok(());
        }
    }
    bail!("no part {name}");
}
