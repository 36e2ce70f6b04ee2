ghost use Rattle.std.specs.Prelude.{◌≡◌, ◌<◌, length, slice_index};

use step_core::Weights;

/// Both weights of a layer.
#[derive(Clone, Copy, Debug)]
pub(crate) struct LayerWeights {
    pub low: u64,
    pub high: u64,
}

impl LayerWeights {
    /// The weights of the layer.
    pub(crate) fn of(weights: &Weights, layer: usize) -> LayerWeights
        requires low { layer < length weights.now.low }
        requires high { layer < length weights.now.high }
        ensures { result ≡ record { low = slice_index weights.now.low layer; high = slice_index weights.now.high layer } }
    {
        LayerWeights {
            low: weights.low[layer],
            high: weights.high[layer],
        }
    }
}
