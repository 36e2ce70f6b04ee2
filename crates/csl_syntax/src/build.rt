// Formulas, from their parts.
ghost use Rattle.std.specs.Prelude.{◌≡◌, IfOk};
ghost use Rattle.csl_syntax.specs.Tree.{tree_of, next, until};
ghost use Rattle.csl_syntax.specs.Machine.{negated, with_both, with_either};
ghost use Rattle.csl_syntax.specs.View.{tree_in};

use crate::formula::{Bound, Formula, Op};
use decimal_text::Decimal;
use std::alloc::{AllocError, Global};

/// The formula, in memory of its own.
pub fn boxed(alloc: Global, formula: Formula) -> Result<Box<Formula>, AllocError>
    ensures { IfOk result (λ g. tree_of g.value ≡ tree_of formula) }
{
    Ok(Box::new(alloc, formula)?)
}

/// The formula under so many `!`.
pub fn negated(alloc: Global, count: u32, formula: Box<Formula>) -> Result<Box<Formula>, AllocError>
    ensures { IfOk result (λ g. tree_of g.value ≡ negated count (tree_of formula.value)) }
{
    let mut left = count;
    let mut whole = formula;
    while left > 0 {
        left -= 1;
        whole = boxed(alloc, Formula::Not(whole))?;
    }
    Ok(whole)
}

/// The formula, after the part before the last `&&` if there is one.
pub fn with_both(
    alloc: Global,
    both: Option<Box<Formula>>,
    formula: Box<Formula>,
) -> Result<Box<Formula>, AllocError>
    ensures { IfOk result (λ g. tree_of g.value ≡ with_both (tree_in both) (tree_of formula.value)) }
{
    match both {
        None => Ok(formula),
        Some(left) => boxed(alloc, Formula::And(left, formula)),
    }
}

// The formula, after the part before the last `||` if there is one.
fn with_either(
    alloc: Global,
    either: Option<Box<Formula>>,
    formula: Box<Formula>,
) -> Result<Box<Formula>, AllocError>
    ensures { IfOk result (λ g. tree_of g.value ≡ with_either (tree_in either) (tree_of formula.value)) }
{
    match either {
        None => Ok(formula),
        Some(left) => boxed(alloc, Formula::Or(left, formula)),
    }
}

/// The whole formula that ends with this one.
pub fn joined(
    alloc: Global,
    either: Option<Box<Formula>>,
    both: Option<Box<Formula>>,
    formula: Box<Formula>,
) -> Result<Box<Formula>, AllocError>
    ensures { IfOk result
        (λ g. tree_of g.value ≡ with_either (tree_in either) (with_both (tree_in both) (tree_of formula.value))) }
{
    let formula = with_both(alloc, both, formula)?;
    with_either(alloc, either, formula)
}

pub fn next(
    alloc: Global,
    op: Op,
    threshold: Decimal,
    formula: Box<Formula>,
) -> Result<Box<Formula>, AllocError>
    ensures { IfOk result (λ g. tree_of g.value ≡ next op threshold (tree_of formula.value)) }
{
    boxed(alloc, Formula::Next(op, threshold, formula))
}

pub fn until(
    alloc: Global,
    op: Op,
    threshold: Decimal,
    left: Box<Formula>,
    bound: Bound,
    right: Box<Formula>,
) -> Result<Box<Formula>, AllocError>
    ensures { IfOk result (λ g. tree_of g.value ≡ until op threshold (tree_of left.value) bound (tree_of right.value)) }
{
    boxed(alloc, Formula::Until(op, threshold, left, bound, right))
}
