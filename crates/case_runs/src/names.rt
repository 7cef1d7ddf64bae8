use super::numbers::number;
use anyhow::{Result, bail};
use plasma_base::put_hex;
use std::alloc::{AllocError, Global};

/// What a name in braces stands for.
#[derive(Drop)]
struct Name {
    name: String,
    value: String,
}

/// The names that a case knows. A later one hides an earlier one.
#[derive(Drop)]
pub struct Names {
    alloc: Global,
    items: Vec<Name>,
}

impl Names {
    /// No name.
    pub fn new(alloc: Global) -> Names {
        Names {
            alloc,
            items: Vec::new(alloc),
        }
    }

    /// From here on the name stands for this.
    pub fn bind(&mut self, name: &str, value: &str) -> Result<(), AllocError> {
        let item = Name {
            name: String::from_str(self.alloc, name)?,
            value: String::from_str(self.alloc, value)?,
        };
        self.items.push(item)?;
        Ok(())
    }

    /// What the name stands for.
    pub fn value(&self, name: &str) -> Option<&str> {
        let mut found = None;
        for item in self.items.iter() {
            if item.name.as_str() == name {
                found = Some(item.value.as_str());
            }
        }
        found
    }

    /// The text, in which what stands in braces is replaced: `{name}` by its value, `{name/4..9}` and
    /// `{name/4..}` by the digits of these bytes of it (an end may be a name), `{text*9}` by the text so
    /// many times, `{u32 n}` and `{u64 n}` by the digits of this number as four or eight bytes.
    pub fn expand(&self, text: &str) -> Result<String> {
        let mut out = String::new(self.alloc);
        for part in text.split('{') {
            match part.split_once('}') {
                None => out.push_str(part)?,
                Some((inside, after)) => {
                    self.push_value(inside, &mut out)?;
                    out.push_str(after)?;
                }
            }
        }
        Ok(out)
    }

    fn push_value(&self, inside: &str, out: &mut String) -> Result<()> {
        if let Some((text, times)) = inside.split_once('*') {
            return self.push_times(text, times, out);
        }
        match inside.split_once(' ') {
            Some(("u32", word)) => {
                let Ok(value) = u32::try_from(self.number_of(word)?) else {
                    bail!("{word} is no number of four bytes");
                };
                self.push_hex(&value.to_be_bytes(), out)
            }
            Some(("u64", word)) => self.push_hex(&self.number_of(word)?.to_be_bytes(), out),
            _ => self.push_bytes(inside, out),
        }
    }

    fn push_times(&self, text: &str, times: &str, out: &mut String) -> Result<()> {
        for _ in 0..self.number_of(times)? {
            out.push_str(text)?;
        }
        Ok(())
    }

    // The number that a word spells, or a name's value.
    fn number_of(&self, word: &str) -> Result<u64> {
        number(self.value(word).unwrap_or(word))
    }

    fn push_hex(&self, bytes: &[u8], out: &mut String) -> Result<()> {
        let text = String::from_utf8(put_hex(self.alloc, bytes)?)?;
        out.push_str(text.as_str().strip_prefix("0x").unwrap_or(""))?;
        Ok(())
    }

    // A name's value, or the digits of some bytes of it.
    fn push_bytes(&self, inside: &str, out: &mut String) -> Result<()> {
        let (name, range) = inside.split_once('/').unwrap_or((inside, "0.."));
        let Some(value) = self.value(name) else {
            bail!("no name {name}");
        };
        let Some((from, to)) = range.split_once("..") else {
            bail!("no range {range}");
        };
        let from = self.number_of(from)?.saturating_mul(2) as usize;
        let to = if to.is_empty() {
            value.len()
        } else {
            self.number_of(to)?.saturating_mul(2) as usize
        };
        let Some(bytes) = value.as_bytes().get(from..to) else {
            bail!("{name} is shorter than {range}");
        };
        out.push_str(String::from_utf8(bytes.to_vec(self.alloc)?)?.as_str())?;
        Ok(())
    }
}
