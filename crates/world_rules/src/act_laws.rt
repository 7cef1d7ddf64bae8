ghost use Rattle.world_rules.specs.ActLaws.{ActsKeepTheRules, ActsAreKnown, EffectsAreOfActs, StepsAreOfActs};

/// A law: the step of a line is what its act does. A line has an act exactly where it keeps the rules of
/// declarations.
pub fn acts_are_steps()
    ensures rules { ActsKeepTheRules }
    ensures effect { EffectsAreOfActs }
    ensures step { StepsAreOfActs }
{}

/// A law: what is known of the act of a line: where its call comes from, which rules a name that it declares keeps,
/// and that the world has the node that it is done with.
pub fn acts_are_known()
    ensures { ActsAreKnown }
{}
