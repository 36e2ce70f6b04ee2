use crate::row::Row;
use crate::sets::Sets;
use std::marker::Model;

/// A chain that jumps, a row for each state, and the sets of an until over it.
///
/// Contracts see the list of rows and the sets.
#[derive(Debug, Drop)]
pub struct Frame {
    pub rows: Vec<Row>,
    pub sets: Sets,
}

impl Model for Frame {
    ghost use Rattle.step_core.specs.FrameLists.{FrameLists};

    ghost Value = { FrameLists };

    ghost view = { λ f. record { rows = f.rows.items; sets = f.sets } };
}
