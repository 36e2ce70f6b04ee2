// What can be wrong with a formula's line.
use std::alloc::AllocError;

/// What is wrong with a line that is no formula.
#[derive(Clone, Copy, Debug, PartialEq, Eq)]
pub enum FormulaWhat {
    /// No token begins here.
    Token,
    /// What begins as a number isn't one, or isn't one within the limits of a decimal.
    Number,
    /// No formula goes on so, or the line ends where none is at its end.
    Expected,
    /// The name isn't a label's.
    UnknownLabel,
    /// The threshold is greater than 1.
    Threshold,
    /// Too many constructs enclose the one that begins here.
    Depth,
    /// The line is too long.
    Length,
}

/// What is wrong with a line, and in which of its columns, from 1.
#[derive(Clone, Copy, Debug, PartialEq, Eq)]
pub struct FormulaFault {
    pub column: u32,
    pub what: FormulaWhat,
}

/// Why no formula was read: a fault of the line, or want of memory.
#[derive(Clone, Copy, Debug, PartialEq, Eq)]
pub enum ParseFault {
    At(FormulaFault),
    Memory,
}

impl From<AllocError> for ParseFault {
    ghost use Rattle.std.specs.Prelude.{◌≡◌};
    ghost use Rattle.csl_syntax.specs.declared.fault.ParseFault.TheVariants.{Memory};

    ghost from_gives = { λ _ fault. fault ≡ Memory };

    fn from(_: AllocError) -> Self {
        ParseFault::Memory
    }
}
