// What a board knows of its plan.

ghost use Rattle.std.specs.Prelude.{◌≡◌, ◌*◌, ◌<◌, ◌≤◌, length};
ghost use Rattle.flat_rows.specs.StateRows.{IsStateRow};
ghost use Rattle.step_core.specs.Limits.{sizes_of};
ghost use Rattle.step_core.specs.Places.{blocks};

use crate::board::Board;
use flat_rows::StateRow;

impl Board {
    /// The row of a state, made ready for quotients.
    #[inline]
    pub fn row(&self, s: u32) -> StateRow<'_>
        requires state { s < length self.now.plan.frame.rows }
        ensures { IsStateRow self.now.plan.frame.rows self.now.plan.frame.sets self.now.plan.reach s (record {
          low = result.low;
          high = result.high;
          row = record { den = result.divisor.now; entries = result.entries.now };
        }) }
    {
        self.rows.row(s)
    }

    /// The number of blocks of a layer.
    #[inline]
    pub fn blocks(&self) -> u32
        ensures { result ≡ blocks (sizes_of self.now.plan) }
    {
        self.layout.blocks()
    }

    /// The number of blocks of all layers from 1 to the last.
    #[inline]
    pub fn open_blocks(&self) -> u64
        ensures count { result ≡ self.now.plan.layers * blocks (sizes_of self.now.plan) }
        ensures few { result ≤ 8388608 }
    {
        let _ = &self.rows;
        u64::from(self.layout.layers()) * u64::from(self.layout.blocks())
    }
}
