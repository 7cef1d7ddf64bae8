ghost use Rattle.std.specs.Prelude.{◌≡◌, ℕ, List, Some};
ghost use Rattle.log_runs.specs.declared.archive_line.ArchiveLine.{ArchiveLine};
ghost use Rattle.log_runs.specs.Grammar.{IsArchiveLine, archive_line_text, archive_line_in};
ghost use Rattle.log_runs.specs.Auditing.{auditing};
ghost use Rattle.log_runs.specs.Archiving.{archiving};
ghost use Rattle.log_runs.specs.Complete.{LinesThatKeepTheRulesAreAnswered};

/// A law: what a line of an archive's run is spelled as is read as that line, and bytes that are read as a line are its
/// spelling.
pub fn an_archive_line_has_one_spelling()
    ensures read_back { (line : ArchiveLine) → IsArchiveLine line
        → archive_line_in (archive_line_text line) ≡ Some line }
    ensures one { (bytes : List ℕ) (line : ArchiveLine) → archive_line_in bytes ≡ Some line
        → (bytes ≡ archive_line_text line) × IsArchiveLine line }
{}

/// A law: the lines of a whole input are all answered where none passes a limit, the first one names a chain, the next
/// ones are calls of its log, then the line `--` stands there, and behind it lines that are answered: of an audit one,
/// a bundle that convicts; of an archive as many as there are. So it is under every digest, key and receipt. That a run
/// of such an input is done, unless something fails, `run_audit` and `run_archive` say themselves.
pub fn lines_that_keep_the_rules_are_answered()
    ensures audit { (dig : List ℕ → List ℕ) (key receipt : List ℕ)
        → LinesThatKeepTheRulesAreAnswered (auditing dig key receipt) }
    ensures archive { (dig : List ℕ → List ℕ) → LinesThatKeepTheRulesAreAnswered (archiving dig) }
{}
