ghost use Rattle.std.specs.Prelude.{◌≡◌, ◌+◌, ◌*◌, ◌≤◌, [], length};
ghost use Rattle.step_core.specs.Limits.{sizes_of};
ghost use Rattle.step_core.specs.Places.{word_count};
ghost use Rattle.flat_rows.specs.StateRows.{AreStateRows};

use crate::rule::{BoardRule, View};
use atomic_table::{Seat, Table};
use flat_rows::StateRows;
use std::alloc::Global;
use step_core::{Layout, Plan};

/// The shared words of a plan. Any number of threads step on them at once, each by passes of its
/// own; a word that changed is better than it was, and no step waits for another thread.
#[derive(Drop)]
pub struct Board {
    pub(crate) plan: Plan,
    pub(crate) layout: Layout,
    pub(crate) rows: StateRows,
    pub(crate) table: Table<u64, View, Plan, BoardRule, Global>,
    ghost made: { AreStateRows plan.frame.rows plan.frame.sets plan.reach rows },
    ghost laid: { layout ≡ sizes_of plan },
    ghost keyed: { table.shared.key ≡ plan },
    ghost sized: { table.shared.table_id.words ≡ word_count (sizes_of plan) },
    ghost few: { (plan.layers + 1) * length plan.frame.rows ≤ 8388608 },
}

/// What a thread steps on a board with. Contracts see what it knows of each word; it has no bytes.
#[derive(Drop)]
pub struct Pass {
    pub(crate) seat: Seat<u64, View>,
    ghost bare: { seat.me.1 ≡ [] },
}
