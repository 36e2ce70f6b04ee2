use crate::weights::Weights;

/// How the words of a state's layers make its bracket.
#[derive(Debug, Drop)]
pub enum Mix {
    /// Of a bounded until: their average by the weights, and `2^-bits` more in the upper word for all
    /// that lies past the last layer. The bits are the second part.
    Poisson(Weights, u32),
    /// Of an unbounded until: the words of the last layer.
    Last,
}
