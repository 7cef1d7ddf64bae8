ghost use Rattle.std.specs.Prelude.{◌≡◌, ◌≤◌, ◌<◌, position, length, IfSome};
ghost use Rattle.streamed_lines.specs.Lines.{is_feed, is_whole, text_of, is_too_long, limit_of};

use super::{MOST_INPUT_BYTES, MOST_LINE_BYTES, MOST_LINES};

/// Whether a line feed ends the line.
fn is_whole(line: &[u8]) -> bool
    ensures { result ≡ is_whole line.now }
{
    matches!(line, [.., b'\n'])
}

/// The line without its line feed.
pub fn text_of(line: &[u8]) -> &[u8]
    ensures { result.now ≡ text_of line.now }
{
    if is_whole(line) {
        &line[..line.len() - 1]
    } else {
        line
    }
}

/// Whether line `number`, which begins after `start` bytes, passes a limit.
pub fn is_too_long(number: u64, start: u64, line: &[u8]) -> bool
    requires { start ≤ MOST_INPUT_BYTES }
    ensures { result ≡ is_too_long number start line.now }
{
    number > MOST_LINES
        || text_of(line).len() as u64 > MOST_LINE_BYTES
        || line.len() as u64 > MOST_INPUT_BYTES - start
}

/// How many bytes there may be up to the end of line `number`, which begins after `start` bytes.
pub fn limit_of(number: u64, start: u64) -> u64
    requires { start ≤ MOST_INPUT_BYTES }
    ensures { result ≡ limit_of number start }
{
    if number > MOST_LINES {
        start
    } else {
        (start + MOST_LINE_BYTES).min(MOST_INPUT_BYTES)
    }
}

/// The place of the first line feed.
pub fn feed_place(bytes: &[u8]) -> Option<usize>
    ensures place { result ≡ position is_feed bytes.now }
    ensures within { IfSome result (λ place. place < length bytes.now) }
{
    bytes.iter().position(|byte| *byte == b'\n')
}
