// The rates at which the states of a model are left.
ghost use Rattle.std.specs.Prelude.{◌≡◌, ◌<◌, ◌^◌};
ghost use Rattle.ctmc_semantics.specs.Uniformised.{greatest_exit_rate, uniform_rate};
ghost use Rattle.model_core.specs.Model.{model_chain};

use model_core::Model;

/// The greatest rate at which a state is left.
pub(crate) fn greatest_exit_rate(model: &Model) -> u64
    ensures value { result ≡ greatest_exit_rate (model_chain model.now) }
    ensures bound { result < 2 ^ 63 }
{
    let mut greatest = 0;
    for s in 0..model.n() {
        greatest = greatest.max(model.exit(s));
    }
    greatest
}

/// The rate of the uniformised chain's jumps: the greatest exit rate, or 1 where all are 0.
pub(crate) fn uniform_rate(model: &Model) -> u64
    ensures value { result ≡ uniform_rate (model_chain model.now) }
    ensures bound { result < 2 ^ 63 }
{
    greatest_exit_rate(model).max(1)
}
