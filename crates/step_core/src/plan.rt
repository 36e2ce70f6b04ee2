use crate::frame::Frame;
use crate::mix::Mix;
use std::marker::Model;

/// All that the computation of an until needs.
///
/// `layers` is the number of jumps to look at. `start_upper` has each state's upper word within no
/// jump, in units of `2^-62`. `reach` is true at the states from which a walk through states that
/// may be live leads to one that may be the goal. Contracts see the lists.
#[derive(Debug, Drop)]
pub struct Plan {
    pub frame: Frame,
    pub layers: u32,
    pub start_upper: Vec<u64>,
    pub reach: Vec<bool>,
    pub mix: Mix,
}

impl Model for Plan {
    ghost use Rattle.step_core.specs.PlanLists.{PlanLists};

    ghost Value = { PlanLists };

    ghost view = { λ p. record {
      frame = p.frame;
      layers = p.layers;
      start_upper = p.start_upper.items;
      reach = p.reach.items;
      mix = p.mix;
    } };
}
