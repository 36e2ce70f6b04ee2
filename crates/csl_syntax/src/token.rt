// Tokens.
use crate::formula::Op;
use decimal_text::Decimal;

/// What the grammar of formulas is made of.
#[derive(Clone, Copy, Debug, PartialEq, Eq)]
pub enum Token {
    Truth,
    Falsehood,
    // A name, by its place among the labels, or by their number where it is none of them.
    Name(u32),
    ProbabilityWord,
    NextWord,
    UntilWord,
    // A word that no formula has, and no label either.
    ReservedWord,
    Bang,
    AndAnd,
    OrOr,
    OpenParen,
    CloseParen,
    OpenBrace,
    CloseBrace,
    OpenBracket,
    CloseBracket,
    Comma,
    Tilde,
    Compare(Op),
    Number(Decimal),
}
