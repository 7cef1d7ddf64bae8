ghost use Rattle.std.specs.Prelude.{◌≡◌, ◌≢◌, ◌∷◌, ◌++◌, IfOk};
ghost use Rattle.plasma_base.specs.Causes.{faults_after};
ghost use Rattle.run_endings.specs.Statuses.{is_write_fault};
ghost use Rattle.run_endings.specs.Outputs.{EndsAs};
ghost use Rattle.run_endings.specs.Texts.{refused_text};
ghost use Rattle.line_forms.specs.Tokens.{number_text};
ghost use Rattle.hss_runs.specs.Signing.{refuses, said_output};

use line_forms::push_number;
use plasma_base::NoMemory;
use plasma_outside::Sink;
use run_endings::{Status, push_refused, put_line};
use std::alloc::Global;

// The last line of a run that was refused for a cause with a number.
fn refused_line(alloc: Global, words: &[u8], number: u64) -> Result<Vec<u8>, NoMemory>
    ensures { IfOk result (λ text. text.items ≡ refused_text (words.now ++ 32 ∷ number_text number)) }
{
    let mut cause = Vec::new(alloc);
    cause.extend_from_slice(words)?;
    cause.push(b' ')?;
    push_number(&mut cause, number)?;
    let mut text = Vec::new(alloc);
    push_refused(&mut text, &cause)?;
    Ok(text)
}

/// Ends a run that was refused for a cause with a number, and says so.
pub fn put_refused<K: Sink>(alloc: Global, sink: &mut K, words: &[u8], number: u64) -> Status
    ensures ends { EndsAs (said_output (refuses words.now number).says) result
        (K.taken sink.old) (K.taken sink.new) ⊥ }
    ensures no_read_fault { result ≢ Status.ReadFault }
    ensures sink_faults { K.faults sink.new ≡ faults_after (K.faults sink.old) (is_write_fault result) }
{
    match refused_line(alloc, words, number) {
        Ok(text) => put_line(sink, &text, Status::Refused),
        Err(NoMemory) => Status::NoMemory,
    }
}
