// The answer at a state, by a bracket round its probability.
ghost use Rattle.std.specs.Prelude.{◌≡◌, ◌+◌, ◌<◌, ◌≤◌, ◌*◌, ◌^◌};
ghost use Rattle.ctmc_semantics.specs.Fraction.{fraction, decimal_fraction};
ghost use Rattle.ctmc_semantics.specs.WordBracket.{WordBracket, word_bracket};
ghost use Rattle.mix_columns.specs.Mixed.{words_of};
ghost use Rattle.csl_semantics.specs.Meaning.{comparison_of};
ghost use Rattle.nested_verdict.specs.BracketAnswer.{bracket_answer, bracket_verdict, decided_verdict, printed_units};
ghost use Rattle.nested_verdict.specs.Ends.{AreProbabilities, ends_bracket};
ghost use Rattle.report.specs.AnswerText.{IsPrintable};
ghost use Rattle.nested_verdict.specs.UntilAnswer.{words_answer};

use csl_syntax::Op;
use decimal_text::Decimal;
use report::{Printed, Verdict};
use round_out::{ONE, cmp_frac, mul_div_ceil, mul_div_floor};
use step_core::Bracket;

// A printed number counts units of 10^-12.
const UNITS: u64 = 1_000_000_000_000;

/// The verdict at a state, and the bracket round its probability.
#[derive(Clone, Copy, Debug, PartialEq, Eq)]
pub(crate) struct StateAnswer {
    pub(crate) verdict: Verdict,
    pub(crate) bracket: Printed,
}

// The two ends of a bracket round a probability, over one divisor.
#[derive(Clone, Copy)]
pub(crate) struct Ends {
    pub(crate) lower: u64,
    pub(crate) upper: u64,
    pub(crate) den: u64,
}

impl Ends {
    // The ends of a bracket of words.
    fn of_words(words: Bracket) -> Ends
        ensures { result ≡ record { lower = words.lower; upper = words.upper; den = ONE } }
    {
        Ends {
            lower: words.lower,
            upper: words.upper,
            den: ONE,
        }
    }
}

/// The answer of a state whose probability lies between the words.
pub(crate) fn words_answer(words: Bracket, op: Op, threshold: Decimal) -> StateAnswer
    requires lower { words.lower ≤ ONE }
    requires upper { words.upper ≤ ONE }
    ensures answer { result ≡ words_answer (comparison_of op) record { lower = words.lower; upper = words.upper }
        (decimal_fraction threshold.c threshold.x) }
    ensures printable { IsPrintable result.bracket }
{
    ends_answer(Ends::of_words(words), op, threshold)
}

// The answer of a state whose probability lies between the ends: what they show of the threshold, and the ends in units
// of 10^-12, rounded down and up.
pub(crate) fn ends_answer(ends: Ends, op: Op, threshold: Decimal) -> StateAnswer
    requires probabilities { AreProbabilities ends }
    ensures answer { result ≡ bracket_answer (comparison_of op) (ends_bracket ends) (decimal_fraction threshold.c threshold.x) }
    ensures printable { IsPrintable result.bracket }
{
    StateAnswer {
        verdict: ends_verdict(ends, op, threshold),
        bracket: printed(ends),
    }
}

// The ends in units of 10^-12, rounded down and up.
fn printed(ends: Ends) -> Printed
    requires probabilities { AreProbabilities ends }
    ensures units { result ≡ printed_units (ends_bracket ends) }
    ensures printable { IsPrintable result }
{
    Printed {
        low: mul_div_floor(ends.lower, UNITS, ends.den),
        high: mul_div_ceil(ends.upper, UNITS, ends.den),
    }
}

/// The words in units of 10^-12, rounded down and up.
pub(crate) fn printed_words(words: Bracket) -> Printed
    requires lower { words.lower ≤ ONE }
    requires upper { words.upper ≤ ONE }
    ensures units { result ≡ printed_units (word_bracket (words_of words)) }
    ensures printable { IsPrintable result }
{
    printed(Ends::of_words(words))
}

/// What the words show of the threshold.
pub(crate) fn words_verdict(words: Bracket, op: Op, threshold: Decimal) -> Verdict
    ensures { result ≡ bracket_verdict (comparison_of op) (word_bracket (words_of words)) (decimal_fraction threshold.c threshold.x) }
{
    ends_verdict(Ends::of_words(words), op, threshold)
}

// What the ends show of the threshold.
fn ends_verdict(ends: Ends, op: Op, threshold: Decimal) -> Verdict
    requires positive { 0 < ends.den }
    ensures { result ≡ bracket_verdict (comparison_of op) (ends_bracket ends) (decimal_fraction threshold.c threshold.x) }
{
    let lower = cmp_frac(ends.lower, ends.den, threshold.c, threshold.x);
    let upper = cmp_frac(ends.upper, ends.den, threshold.c, threshold.x);
    match op {
        Op::Less => decided_verdict(upper.is_lt(), lower.is_ge()),
        Op::AtMost => decided_verdict(upper.is_le(), lower.is_gt()),
        Op::More => decided_verdict(lower.is_gt(), upper.is_le()),
        Op::AtLeast => decided_verdict(lower.is_ge(), upper.is_lt()),
    }
}

fn decided_verdict(satisfied: bool, refuted: bool) -> Verdict
    ensures { result ≡ decided_verdict satisfied refuted }
{
    if satisfied {
        Verdict::Satisfied
    } else if refuted {
        Verdict::Refuted
    } else {
        Verdict::Undecided
    }
}
