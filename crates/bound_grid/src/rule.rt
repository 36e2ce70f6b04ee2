// The rule of the table, and what each step tells.

use atomic_table::{Join, Play, Split, TableRule};
use std::collections::LinkedList;
use std::marker::Model;
use step_core::Plan;

/// What a pass knows and has. No value of it is made.
pub struct View {
    live: bool,
    layers: u64,
    states: u64,
    limits: LinkedList<u64>,
    notes: LinkedList<u64>,
    tickets: LinkedList<u64>,
    draws: u64,
}

impl Model for View {
    ghost use Rattle.bound_grid.specs.PassView.{PassView};

    ghost Value = { PassView };

    ghost view = { λ v. record {
      live = v.live;
      sizes = record { layers = v.layers; states = v.states };
      limits = v.limits;
      notes = v.notes;
      tickets = v.tickets;
      draws = v.draws;
    } };
}

/// The words are kept, the notes and the tickets of the live passes fit them, and word 0 is 0.
pub struct BoardRule;

impl TableRule<u64, View, Plan> for BoardRule {
    ghost use Rattle.bound_grid.specs.TableRule.{IsKept};
    ghost use Rattle.bound_grid.specs.PassView.{first_view};

    ghost holds = { IsKept };

    ghost first = { first_view };
}

/// A word is looked at.
pub struct Loads;

impl Play<u64, View> for Loads {
    ghost use Rattle.bound_grid.specs.Steps.{Loaded};

    ghost then = { Loaded };
}

/// A word becomes the greater of itself and a value.
pub struct Raises;

impl Play<u64, View> for Raises {
    ghost use Rattle.bound_grid.specs.Steps.{Raised};

    ghost then = { Raised };
}

/// A word becomes the smaller of itself and a value.
pub struct Cuts;

impl Play<u64, View> for Cuts {
    ghost use Rattle.bound_grid.specs.Steps.{Cut};

    ghost then = { Cut };
}

/// A bit of a word is set.
pub struct Seals;

impl Play<u64, View> for Seals {
    ghost use Rattle.bound_grid.specs.Steps.{Sealed};

    ghost then = { Sealed };
}

/// A ticket is drawn: a word goes up by one.
pub struct Draws;

impl Play<u64, View> for Draws {
    ghost use Rattle.bound_grid.specs.Steps.{Drawn};

    ghost then = { Drawn };
}

/// A pass is split in two that know the same, or two passes become one that knows the better of both.
pub struct Copies;

impl Split<View> for Copies {
    ghost use Rattle.bound_grid.specs.PassView.{split_view, new_view};

    ghost left = { split_view };

    ghost right = { new_view };
}

impl Join<View> for Copies {
    ghost use Rattle.bound_grid.specs.PassView.{better_view, ended_view};

    ghost both = { better_view };

    ghost spent = { ended_view };
}
