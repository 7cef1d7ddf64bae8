use super::names::Names;
use anyhow::Result;
use std::alloc::Global;

/// At most so many holes stand in one expected line.
const MOST_HOLES: u64 = 64;

/// Whether a line that was written is as expected. A hole `{?name}` takes what stands up to the next text of
/// the pattern, and binds the name to it, or has to be what the name stands for already.
pub fn matches(names: &mut Names, expected: &str, line: &str) -> Result<bool> {
    let mut rest = line;
    let mut pattern = expected;
    for _ in 0..MOST_HOLES {
        let Some((before, after)) = pattern.split_once("{?") else {
            return Ok(names.expand(pattern)?.as_str() == rest);
        };
        let before = names.expand(before)?;
        let Some(behind) = rest.strip_prefix(before.as_str()) else {
            return Ok(false);
        };
        let Some((name, next)) = after.split_once('}') else {
            return Ok(false);
        };
        let end = names.expand(next.split_once("{?").map_or(next, |(end, _)| end))?;
        let Some((taken, left)) = cut(behind, end.as_str()) else {
            return Ok(false);
        };
        if !fills(names, name, taken)? {
            return Ok(false);
        }
        rest = left;
        pattern = next;
    }
    Ok(false)
}

// What stands in front of this text, and the rest from there on. Without a text all stands in front of it.
fn cut<'a>(line: &'a str, end: &str) -> Option<(&'a str, &'a str)> {
    if end.is_empty() {
        return Some((line, ""));
    }
    let (taken, _) = line.split_once(end)?;
    Some((taken, line.strip_prefix(taken).unwrap_or("")))
}

// Whether the name may stand for this, from here on if it didn't before.
fn fills(names: &mut Names, name: &str, taken: &str) -> Result<bool> {
    if let Some(value) = names.value(name) {
        return Ok(value == taken);
    }
    names.bind(name, taken)?;
    Ok(true)
}

/// How the lines that were written differ from those that are expected, where they do. A first line `..` stands
/// for any lines.
pub fn difference(
    alloc: Global,
    names: &mut Names,
    expected: &[String],
    written: &str,
) -> Result<Option<String>> {
    match expected.split_first() {
        Some((first, others)) if first.as_str() == ".." => {
            let skipped = written.lines().count().saturating_sub(others.len());
            difference_behind(alloc, names, others, written, skipped)
        }
        _ => difference_behind(alloc, names, expected, written, 0),
    }
}

// How the lines behind so many differ.
fn difference_behind(
    alloc: Global,
    names: &mut Names,
    expected: &[String],
    written: &str,
    skipped: usize,
) -> Result<Option<String>> {
    let mut lines = written.lines().skip(skipped);
    for (at, want) in expected.iter().enumerate() {
        let line = lines.next().unwrap_or("(no line)");
        if !matches(names, want.as_str(), line)? {
            return Ok(Some(format!(in alloc; "line {at} is {line} and not {want}")?));
        }
    }
    match lines.next() {
        Some(line) => Ok(Some(format!(in alloc; "one line too many: {line}")?)),
        None => Ok(None),
    }
}
