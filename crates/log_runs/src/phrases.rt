ghost use Rattle.std.specs.Prelude.{◌≡◌, ◌++◌, OnOk};
ghost use Rattle.log_runs.specs.Texts.{with_number, told};

use line_forms::push_number;
use plasma_base::NoMemory;

/// Puts words at the end.
pub fn push_words(out: &mut Vec<u8>, words: &[u8]) -> Result<(), NoMemory>
    ensures { OnOk result (out.new.items ≡ out.old.items ++ words.now) }
{
    out.extend_from_slice(words)?;
    Ok(())
}

/// Puts words at the end, and a number behind them.
pub fn push_numbered(out: &mut Vec<u8>, words: &[u8], number: u64) -> Result<(), NoMemory>
    ensures { OnOk result (out.new.items ≡ out.old.items ++ with_number words.now number) }
{
    out.extend_from_slice(words)?;
    out.push(b' ')?;
    push_number(out, number)
}

/// Puts words and a number at the end, as a line.
pub fn push_told(out: &mut Vec<u8>, words: &[u8], number: u64) -> Result<(), NoMemory>
    ensures { OnOk result (out.new.items ≡ out.old.items ++ told words.now number) }
{
    push_numbered(out, words, number)?;
    out.push(b'\n')?;
    Ok(())
}
