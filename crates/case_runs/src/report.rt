use super::ask::Wanted;
use super::matching::{difference, matches};
use super::names::Names;
use super::running::Found;
use anyhow::Result;
use plasma_base::{Hash32, Sha, put_hex};
use std::alloc::Global;

/// How what came of a run isn't what is expected, where it isn't: the first difference.
pub fn report(
    alloc: Global,
    names: &mut Names,
    want: &Wanted,
    found: &Found,
    digests: u64,
) -> Result<Option<String>> {
    let written = String::from_utf8(found.output.as_slice().to_vec(alloc)?)?;
    let (status, wanted, left) = (found.status, want.status, found.left);
    if status != wanted {
        let last = written.lines().last().unwrap_or("");
        return Ok(Some(format!(in alloc; "status {status} and not {wanted}: {last}")?));
    }
    if let Some(told) = of_text(alloc, names, want, found, written.as_str())? {
        return Ok(Some(told));
    }
    if want.left.is_some_and(|count| count != left) {
        return Ok(Some(format!(in alloc; "{left} bytes are left")?));
    }
    if want.digests.is_some_and(|count| count != digests) {
        return Ok(Some(format!(in alloc; "{digests} digests")?));
    }
    if let Some(told) = of_image(alloc, names, "notes", &want.notes, found.notes.as_slice())? {
        return Ok(Some(told));
    }
    of_image(
        alloc,
        names,
        "leaves",
        &want.leaves,
        found.leaves.as_slice(),
    )
}

// How the text differs: in its length or its digest, where these are expected, or else in a line.
fn of_text(
    alloc: Global,
    names: &mut Names,
    want: &Wanted,
    found: &Found,
    written: &str,
) -> Result<Option<String>> {
    let Some(text) = &want.text else {
        return difference(alloc, names, want.lines.as_slice(), written);
    };
    let length = found.output.len();
    let digest = Sha.digest(found.output.as_slice());
    let hex = String::from_utf8(put_hex(alloc, &digest)?)?;
    let hex = hex.as_str().strip_prefix("0x").unwrap_or("");
    let is = format!(in alloc; "{length} {hex}")?;
    if is.as_str() == text.as_str() {
        return Ok(None);
    }
    Ok(Some(format!(in alloc; "the text is {is}")?))
}

// How an image differs, which is expected as a hex, or by its length alone.
fn of_image(
    alloc: Global,
    names: &mut Names,
    name: &str,
    want: &Option<String>,
    bytes: &[u8],
) -> Result<Option<String>> {
    let Some(want) = want else {
        return Ok(None);
    };
    let text = String::from_utf8(put_hex(alloc, bytes)?)?;
    let count = bytes.len() as u64;
    let is_it = match length_of(names, want.as_str())? {
        Some(length) => length == count,
        None => matches(names, want.as_str(), text.as_str())?,
    };
    if is_it {
        return Ok(None);
    }
    Ok(Some(format!(in alloc; "the {name} have {count} bytes: {text}")?))
}

// The length that is expected in place of an image, where it is one.
fn length_of(names: &Names, want: &str) -> Result<Option<u64>> {
    if want.contains("{?") {
        return Ok(None);
    }
    Ok(names.expand(want)?.as_str().parse::<u64>().ok())
}
