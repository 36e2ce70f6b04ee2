// Formulas.
use decimal_text::Decimal;

/// How a probability is compared with a threshold.
#[derive(Clone, Copy, Debug, PartialEq, Eq)]
pub enum Op {
    /// `<`
    Less,
    /// `<=`
    AtMost,
    /// `>`
    More,
    /// `>=`
    AtLeast,
}

impl Op {
    ghost use Rattle.std.specs.Prelude.{◌≡◌};
    ghost use Rattle.csl_syntax.specs.Tokens.{op_text};

    /// The comparison as it is written.
    pub fn text(self) -> &'static [u8]
        ensures { result.now ≡ op_text self }
    {
        match self {
            Op::Less => b"<",
            Op::AtMost => b"<=",
            Op::More => b">",
            Op::AtLeast => b">=",
        }
    }
}

/// What bounds an until.
#[derive(Clone, Copy, Debug, PartialEq, Eq)]
pub enum Bound {
    Unbounded,
    /// The time that may pass at most.
    Time(Decimal),
    /// The reward that may be gathered at most.
    Reward(Decimal),
}

/// A formula over labels, which it names by their numbers from 0.
///
/// Contracts see it as a tree of plain values, whatever the memory in which its parts lie.
#[derive(Debug, PartialEq, Eq, Drop)]
pub enum Formula {
    /// True in every state.
    Tt,
    /// False in every state.
    Ff,
    /// True in the states that have the label.
    Label(u32),
    Not(Box<Formula>),
    And(Box<Formula>, Box<Formula>),
    Or(Box<Formula>, Box<Formula>),
    /// The probability that the next state satisfies the formula compares so to the threshold.
    Next(Op, Decimal, Box<Formula>),
    /// The probability that a state that satisfies the last formula is reached within the bound, by states that satisfy
    /// the first, compares so to the threshold.
    Until(Op, Decimal, Box<Formula>, Bound, Box<Formula>),
}
