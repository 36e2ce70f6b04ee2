// What holds of the chain that a list of transitions makes, each law the contract of a function.
ghost use Rattle.model_core.specs.Laws.{ExitRateIsExitSum, OrderMakesNoOtherChain, RateIntoIsRowSum};

/// A state's exit rate is the sum over its transitions.
pub fn exit_rate_is_exit_sum()
    ensures { ExitRateIsExitSum }
{}

/// The rate from a state into a set of states is the sum over the state's row.
pub fn rate_into_is_row_sum()
    ensures { RateIntoIsRowSum }
{}

/// The same transitions in another order make the same chain.
pub fn order_makes_no_other_chain()
    ensures { OrderMakesNoOtherChain }
{}
