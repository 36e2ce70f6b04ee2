// The laws of the outcome, each the contract of a function.
ghost use Rattle.session.specs.Laws.{InputHasAnOutcome, OutcomeIsOne, UnwatchedOutcomeIsOne};

/// Words, files that are there, and formulas have an outcome: a status and a text.
pub fn input_has_an_outcome()
    ensures { InputHasAnOutcome }
{}

/// They have one outcome at most, but for the brackets of a watched state, and with the flag of an
/// early end those of an until that leaves no state undecided. Where no state is watched and the flag
/// isn't given, they have one at most.
pub fn outcome_is_one()
    ensures alike { OutcomeIsOne }
    ensures unwatched { UnwatchedOutcomeIsOne }
{}
