// How the rows of a frame are laid flat.

ghost use Rattle.std.specs.Prelude.{◌≡◌, ◌+◌, ◌<◌, ◌≤◌, false, All, IfOk, IfSome, IfNone, length};
ghost use Rattle.step_core.specs.SoundFrame.{IsSoundRow, AreSoundSets};
ghost use Rattle.flat_rows.specs.RowsOf.{AreRowsOf, AreFit, HasSides, low_needs_row, high_needs_row};

use crate::flat_rows::FlatRows;
use crate::sides::Sides;
use std::alloc::{AllocError, Global};
use step_core::{Row, Sets};

/// Whether the state's lower and its upper word are a quotient of its row.
pub(crate) fn needs_row(sets: &Sets, reach: &[bool], state: usize) -> (bool, bool)
    requires sets { AreSoundSets (length sets.now.goal_must) sets.now }
    requires reach { length reach.now ≡ length sets.now.goal_must }
    requires inside { state < length sets.now.goal_must }
    ensures low { result.0 ≡ low_needs_row sets.now reach.now state }
    ensures high { result.1 ≡ high_needs_row sets.now reach.now state }
{
    let low = sets.live_must[state] && !sets.goal_must[state] && reach[state];
    let high = sets.live_may[state] && !sets.goal_may[state] && reach[state];
    (low, high)
}

/// Which words of the state are a quotient of its row, if any.
fn sides_of(sets: &Sets, reach: &[bool], state: usize) -> Option<Sides>
    requires sets { AreSoundSets (length sets.now.goal_must) sets.now }
    requires reach { length reach.now ≡ length sets.now.goal_must }
    requires inside { state < length sets.now.goal_must }
    ensures some { IfSome result (HasSides sets.now reach.now state) }
    ensures none { IfNone result ((low_needs_row sets.now reach.now state ≡ false)
        × (high_needs_row sets.now reach.now state ≡ false)) }
{
    let (low, high) = needs_row(sets, reach, state);
    if low && high {
        Some(Sides::Both)
    } else if low {
        Some(Sides::Low)
    } else if high {
        Some(Sides::High)
    } else {
        None
    }
}

/// Lays the rows of `count` states from `first` on flat, those that need theirs.
///
/// `reach` is true at the states that can reach the goal; the others have no row. Rows with the
/// first row's divisor are the fastest. The only error is want of memory.
pub fn flatten(
    alloc: Global,
    rows: &[Row],
    sets: &Sets,
    reach: &[bool],
    first: usize,
    count: usize,
) -> Result<FlatRows, AllocError>
    requires rows { All (IsSoundRow (length rows.now)) rows.now }
    requires sets { AreSoundSets (length rows.now) sets.now }
    requires reach { length reach.now ≡ length rows.now }
    requires some { 0 < length rows.now }
    requires few { length rows.now ≤ 65536 }
    requires inside { first + count ≤ length rows.now }
    ensures rows { IfOk result (AreRowsOf rows.now sets.now reach.now first count) }
    ensures fit { IfOk result (AreFit (length rows.now) count) }
{
    let first_row = &rows[0];
    let mut flat = FlatRows::new(alloc, first_row.den);
    for place in 0..count {
        let state = first + place;
        if let Some(sides) = sides_of(sets, reach, state) {
            let row = &rows[state];
            flat.push(place as u32, row, sides)?;
        }
    }
    Ok(flat)
}
