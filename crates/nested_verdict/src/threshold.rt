// The threshold of a probability operator, as a test of whether a bracket is narrow enough.

ghost use Rattle.std.specs.Prelude.{◌≡◌};
ghost use Rattle.csl_semantics.specs.Meaning.{comparison_of};
ghost use Rattle.ctmc_semantics.specs.Fraction.{decimal_fraction};
ghost use Rattle.ctmc_semantics.specs.WordBracket.{word_bracket};
ghost use Rattle.mix_columns.specs.Mixed.{words_of};
ghost use Rattle.nested_verdict.specs.BracketAnswer.{bracket_verdict};
ghost use Rattle.nested_verdict.specs.EarlyEnd.{is_decided};

use crate::state_answer::words_verdict;
use column_workers::Enough;
use csl_syntax::Op;
use decimal_text::Decimal;
use report::Verdict;
use step_core::Bracket;

/// A comparison with a limit. A bracket that shows whether its probability meets it is narrow enough.
#[derive(Clone, Copy)]
pub(crate) struct Threshold {
    pub(crate) op: Op,
    pub(crate) limit: Decimal,
}

impl Enough for Threshold {
    ghost is_enough = { λ t bracket. is_decided (bracket_verdict (comparison_of t.op) (word_bracket (words_of bracket))
        (decimal_fraction t.limit.c t.limit.x)) };

    fn enough(&self, bracket: Bracket) -> bool {
        words_verdict(bracket, self.op, self.limit) != Verdict::Undecided
    }
}
