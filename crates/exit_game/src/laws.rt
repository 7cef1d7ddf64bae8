ghost use Rattle.exit_game.specs.Laws.{LastIsTakenBack};

/// A challenge that was put last, and then taken back, leaves the slots as they were before.
pub fn a_last_challenge_is_taken_back()
    ensures { LastIsTakenBack }
{}
