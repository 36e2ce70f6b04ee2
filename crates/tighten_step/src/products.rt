// What a row makes of the words of a layer.

ghost use Rattle.std.specs.Prelude.{◌≤◌};
ghost use Rattle.step_core.specs.SoundPlan.{IsSoundPlan};
ghost use Rattle.bound_grid.specs.Passes.{IsPassOf};
ghost use Rattle.tighten_step.specs.Quotients.{IsReady, KnowsMoreWords, AreLowProducts, AreHighProducts, lists_of};

use bound_grid::{Board, Pass};
use flat_rows::StateRow;

/// The entries' numbers times their targets' lower words in the layer, added up. The pass notes the
/// words.
#[inline]
pub(crate) fn low_products(board: &Board, pass: &mut Pass, k: u32, row: &StateRow<'_>) -> u128
    requires sound { IsSoundPlan board.now.plan }
    requires pass { IsPassOf board.now pass.old }
    requires layer { k ≤ board.now.plan.layers }
    requires row { IsReady board.now.plan (lists_of row.now) }
    ensures knows { KnowsMoreWords board.now pass.old pass.new }
    ensures products { AreLowProducts board.now pass.old pass.new k (lists_of row.now) result }
{
    let mut products: u128 = 0;
    for entry in row.entries {
        let word = board.load_lower(pass, k, entry.to);
        products += u128::from(entry.num) * u128::from(word);
    }
    products
}

/// The same of the upper words.
#[inline]
pub(crate) fn high_products(board: &Board, pass: &mut Pass, k: u32, row: &StateRow<'_>) -> u128
    requires sound { IsSoundPlan board.now.plan }
    requires pass { IsPassOf board.now pass.old }
    requires layer { k ≤ board.now.plan.layers }
    requires row { IsReady board.now.plan (lists_of row.now) }
    ensures knows { KnowsMoreWords board.now pass.old pass.new }
    ensures products { AreHighProducts board.now pass.old pass.new k (lists_of row.now) result }
{
    let mut products: u128 = 0;
    for entry in row.entries {
        let word = board.load_upper(pass, k, entry.to);
        products += u128::from(entry.num) * u128::from(word);
    }
    products
}

/// Both, in one go over the entries.
#[inline]
pub(crate) fn both_products(
    board: &Board,
    pass: &mut Pass,
    k: u32,
    row: &StateRow<'_>,
) -> (u128, u128)
    requires sound { IsSoundPlan board.now.plan }
    requires pass { IsPassOf board.now pass.old }
    requires layer { k ≤ board.now.plan.layers }
    requires row { IsReady board.now.plan (lists_of row.now) }
    ensures knows { KnowsMoreWords board.now pass.old pass.new }
    ensures low { AreLowProducts board.now pass.old pass.new k (lists_of row.now) result.0 }
    ensures high { AreHighProducts board.now pass.old pass.new k (lists_of row.now) result.1 }
{
    let mut low: u128 = 0;
    let mut high: u128 = 0;
    for entry in row.entries {
        let lower = board.load_lower(pass, k, entry.to);
        let upper = board.load_upper(pass, k, entry.to);
        let num = u128::from(entry.num);
        low += num * u128::from(lower);
        high += num * u128::from(upper);
    }
    (low, high)
}
