// The laws of the definitions, each the contract of a function.

pub mod brackets;
pub mod contains;
pub mod jumps;
pub mod mix;
pub mod poisson;
pub mod tables;
pub mod verdicts;
pub mod weights;

ghost use Rattle.ctmc_semantics.specs.Laws.{NextIsAtMostOne, FractionsAreOrdered, OppositeIsNot, TestIsRight, ThresholdIsDecided};
ghost use Rattle.ctmc_semantics.specs.Laws.{ThresholdReadsTheNumber};

/// The probability of a next operator never passes 1.
pub fn next_is_at_most_one()
    ensures { NextIsAtMostOne }
{}

/// Of two fractions exactly one holds: less, the same number, or greater.
pub fn fractions_are_ordered()
    ensures { FractionsAreOrdered }
{}

/// A probability meets a threshold by the opposite of a comparison exactly where it doesn't by the
/// comparison itself: `>=` is the opposite of `<`, and `>` of `<=`.
pub fn comparisons_are_complements()
    ensures { OppositeIsNot }
{}

/// The test of a threshold, on whole numbers, holds exactly where the threshold is met.
pub fn threshold_is_tested()
    ensures { TestIsRight }
{}

/// A probability meets a threshold or it doesn't, and which one depends on its value alone.
pub fn threshold_is_decided()
    ensures decided { ThresholdIsDecided }
    ensures by_value { ThresholdReadsTheNumber }
{}
