ghost use Rattle.std.specs.Prelude.{◌≡◌};
ghost use Rattle.root_log.specs.EndOfLog.{is_end_of_log};

/// Whether a line ends a log: it is `--`. The lines behind it are none of the log.
pub fn is_end_of_log(line: &[u8]) -> bool
    ensures { result ≡ is_end_of_log line.now }
{
    line == b"--".as_slice()
}
