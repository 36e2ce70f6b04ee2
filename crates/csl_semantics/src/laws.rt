// The laws of meaning, each the contract of a function.
ghost use Rattle.csl_semantics.specs.Laws.{OneMeaning, MeaningIsNeverMissing, FormulaWithoutUntilIsDecided};
ghost use Rattle.csl_semantics.specs.Laws.{PropositionalHasNoUntil, NoUntilHasNoReward};
ghost use Rattle.csl_semantics.specs.Laws.{NextIsSat, TimeUntilIsSat, ReachUntilIsSat, RewardUntilIsSat};

/// One list of truth values at most stands for a formula.
pub fn formula_has_one_meaning()
    ensures { OneMeaning }
{}

/// It can't be that none does, where no bound is on the reward or each state earns.
pub fn meaning_is_never_missing()
    ensures { MeaningIsNeverMissing }
{}

/// For a formula without an until one does: the list of the truth values that are computed.
pub fn formula_without_until_is_decided()
    ensures { FormulaWithoutUntilIsDecided }
{}

/// A formula without a probability operator has no until, and one without an until has no bound on
/// the reward.
pub fn kinds_of_formulas()
    ensures propositional { PropositionalHasNoUntil }
    ensures no_until { NoUntilHasNoReward }
{}

/// An operator's truth values are those that its operands' give.
pub fn operators_read_their_operands()
    ensures next { NextIsSat }
    ensures time_until { TimeUntilIsSat }
    ensures reach_until { ReachUntilIsSat }
    ensures reward_until { RewardUntilIsSat }
{}
