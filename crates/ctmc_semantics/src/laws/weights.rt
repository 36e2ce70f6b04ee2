// The laws of the rounded Poisson weights.
ghost use Rattle.ctmc_semantics.specs.WeightLaws.{WeightsEnclose, ModeIsWithin, ModeWeighsOne, WeightsAddUp, WeightsAreOrdered};
ghost use Rattle.ctmc_semantics.specs.WeightLaws.{WeightsAreAtMostOne, WeightsAreNear};

/// The rounded weights enclose the exact ones.
pub fn weights_enclose()
    ensures { WeightsEnclose }
{}

/// The mode lies within the horizon and weighs 1, so no sum of weights is 0.
pub fn mode_weighs_one()
    ensures within { ModeIsWithin }
    ensures one { ModeWeighsOne }
    ensures sum { WeightsAddUp }
{}

/// The two weights of a number of jumps are in order, at most 1, and near each other up to the
/// horizon.
pub fn weights_are_near()
    ensures ordered { WeightsAreOrdered }
    ensures at_most_one { WeightsAreAtMostOne }
    ensures near { WeightsAreNear }
{}
