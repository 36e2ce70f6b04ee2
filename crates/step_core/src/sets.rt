use std::marker::Model;

/// For each state, whether it surely is the goal of an until and whether it may be, and the same
/// for the states that the until may pass through, which are its live states.
///
/// Contracts see the four lists.
#[derive(Debug, Drop)]
pub struct Sets {
    pub goal_must: Vec<bool>,
    pub goal_may: Vec<bool>,
    pub live_must: Vec<bool>,
    pub live_may: Vec<bool>,
}

impl Model for Sets {
    ghost use Rattle.step_core.specs.FrameLists.{SetLists};

    ghost Value = { SetLists };

    ghost view = { λ s. record {
      goal_must = s.goal_must.items;
      goal_may = s.goal_may.items;
      live_must = s.live_must.items;
      live_may = s.live_may.items;
    } };
}
