use std::marker::Model;

/// The words of each layer, from 0 jumps to a plan's last number of them: `low` never above the
/// probabilities, `high` never below them, in units of `2^-62`.
///
/// Contracts see the two lists of layers.
#[derive(Debug, Drop)]
pub struct Tables {
    pub low: Vec<Vec<u64>>,
    pub high: Vec<Vec<u64>>,
}

impl Model for Tables {
    ghost use Rattle.std.specs.Prelude.{map};
    ghost use Rattle.step_core.specs.TableLists.{TableLists};

    ghost Value = { TableLists };

    ghost view = { λ t. record {
      low = map (λ layer. layer.items) t.low.items;
      high = map (λ layer. layer.items) t.high.items;
    } };
}
