ghost use Rattle.std.specs.Prelude.{◌≡◌};
ghost use Rattle.world_maker.specs.Laws.{TextsAreOfTheirLines, LinesAreInTheGrammar, LinesKeepTheRules};

use super::generator::MOST_ROUNDS;

/// A law: a text that is made is cut at its line feeds into the texts of its lines, and each is read as that
/// line, which is in the grammar.
pub fn lines_are_in_the_grammar()
    ensures text { TextsAreOfTheirLines }
    ensures lines { LinesAreInTheGrammar }
{}

/// A law: the lines of a schedule that is made have a run, whatever the digest is. So each has a step in the run
/// of the lines before it, and none breaks a rule of declarations.
pub fn lines_keep_the_rules()
    ensures { LinesKeepTheRules }
{}

/// A schedule that is made has at most 10,000 rounds.
pub fn the_limit_is_this_number()
    ensures { MOST_ROUNDS ≡ 10000 }
{}
