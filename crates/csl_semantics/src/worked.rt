// Meanings that are worked out by hand.
ghost use Rattle.std.specs.Prelude.{◌≡◌, codes};
ghost use Rattle.csl_syntax.specs.CanonicalText.{formula_text};
ghost use Rattle.csl_semantics.specs.WorkedMeanings.{NextMeaning, TimeUntilMeaning, ReachUntilMeaning, RewardUntilMeaning, NestedMeaning};
ghost use Rattle.csl_semantics.specs.WorkedMeanings.{worked_chain, next_a, soon_a, surely_a, cheaply_a};

/// Over a chain of three states a next, an until with a bound on the time, one without a bound, one
/// with a bound on the reward, and a nested formula stand for the lists of truth values that one finds by hand.
pub fn worked_meanings()
    ensures next { NextMeaning }
    ensures time_until { TimeUntilMeaning }
    ensures reach_until { ReachUntilMeaning }
    ensures reward_until { RewardUntilMeaning }
    ensures nested { NestedMeaning }
{}

/// The formulas are those of these texts.
pub fn worked_formulas()
    ensures next { formula_text worked_chain.names next_a ≡ codes "P{>=0.5}[X a]" }
    ensures time_until { formula_text worked_chain.names soon_a ≡ codes "P{>0.5}[tt U[0,1] a]" }
    ensures reward_until { formula_text worked_chain.names cheaply_a ≡ codes "P{>0.5}[tt U[0,~][0,2] a]" }
    ensures reach_until { formula_text worked_chain.names surely_a ≡ codes "P{>=1}[tt U a]" }
{}
