use anyhow::{Result, bail};
use std::alloc::Global;

/// The number that a word spells.
pub fn number(word: &str) -> Result<u64> {
    match word.trim().parse::<u64>() {
        Ok(value) => Ok(value),
        Err(_) => bail!("no number: {word}"),
    }
}

/// The two numbers of a range, as `4..7`, which has both ends.
pub fn range(word: &str) -> Option<(u64, u64)> {
    let (low, high) = word.trim().split_once("..")?;
    match (low.parse::<u64>(), high.parse::<u64>()) {
        (Ok(low), Ok(high)) => Some((low, high)),
        _ => None,
    }
}

/// The numbers of a list, as `4`, `4..7`, and `1x20`, which is 20 ones.
pub fn numbers(alloc: Global, text: &str) -> Result<Vec<u64>> {
    let mut out = Vec::new(alloc);
    for word in text.split(' ') {
        if let Some((low, high)) = range(word) {
            for value in low..high.saturating_add(1) {
                out.push(value)?;
            }
        } else if let Some((value, times)) = word.split_once('x') {
            let value = number(value)?;
            for _ in 0..number(times)? {
                out.push(value)?;
            }
        } else if !word.is_empty() {
            out.push(number(word)?)?;
        }
    }
    Ok(out)
}
