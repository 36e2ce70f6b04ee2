// The quotients of a row over the words of a layer.

ghost use Rattle.std.specs.Prelude.{◌≤◌};
ghost use Rattle.step_core.specs.SoundPlan.{IsSoundPlan};
ghost use Rattle.bound_grid.specs.Passes.{IsPassOf};
ghost use Rattle.tighten_step.specs.Quotients.{IsReady, KnowsMoreWords, IsLowQuotient, IsHighQuotient, lists_of};

use crate::products::{both_products, high_products, low_products};
use bound_grid::{Board, Pass};
use flat_rows::StateRow;

/// The quotient over the lower words, rounded down. The pass notes the words.
///
/// A row of one entry surely leads to its target, whose word is the quotient.
#[inline]
pub(crate) fn low_quotient(board: &Board, pass: &mut Pass, k: u32, row: &StateRow<'_>) -> u64
    requires sound { IsSoundPlan board.now.plan }
    requires pass { IsPassOf board.now pass.old }
    requires layer { k ≤ board.now.plan.layers }
    requires row { IsReady board.now.plan (lists_of row.now) }
    ensures knows { KnowsMoreWords board.now pass.old pass.new }
    ensures quotient { IsLowQuotient board.now pass.old pass.new k (lists_of row.now) result }
{
    if let [only] = row.entries {
        return board.load_lower(pass, k, only.to);
    }
    let products = low_products(board, pass, k, row);
    row.divisor.floor(products)
}

/// The quotient over the upper words, rounded up.
#[inline]
pub(crate) fn high_quotient(board: &Board, pass: &mut Pass, k: u32, row: &StateRow<'_>) -> u64
    requires sound { IsSoundPlan board.now.plan }
    requires pass { IsPassOf board.now pass.old }
    requires layer { k ≤ board.now.plan.layers }
    requires row { IsReady board.now.plan (lists_of row.now) }
    ensures knows { KnowsMoreWords board.now pass.old pass.new }
    ensures quotient { IsHighQuotient board.now pass.old pass.new k (lists_of row.now) result }
{
    if let [only] = row.entries {
        return board.load_upper(pass, k, only.to);
    }
    let products = high_products(board, pass, k, row);
    row.divisor.ceil(products)
}

/// Both.
#[inline]
pub(crate) fn both_quotients(
    board: &Board,
    pass: &mut Pass,
    k: u32,
    row: &StateRow<'_>,
) -> (u64, u64)
    requires sound { IsSoundPlan board.now.plan }
    requires pass { IsPassOf board.now pass.old }
    requires layer { k ≤ board.now.plan.layers }
    requires row { IsReady board.now.plan (lists_of row.now) }
    ensures knows { KnowsMoreWords board.now pass.old pass.new }
    ensures low { IsLowQuotient board.now pass.old pass.new k (lists_of row.now) result.0 }
    ensures high { IsHighQuotient board.now pass.old pass.new k (lists_of row.now) result.1 }
{
    if let [only] = row.entries {
        let low = board.load_lower(pass, k, only.to);
        let high = board.load_upper(pass, k, only.to);
        return (low, high);
    }
    let (low, high) = both_products(board, pass, k, row);
    (row.divisor.floor(low), row.divisor.ceil(high))
}
