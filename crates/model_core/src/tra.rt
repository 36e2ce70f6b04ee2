// The chain's transitions.
ghost use Rattle.std.specs.Prelude.{◌≡◌, ◌≤◌};
ghost use Rattle.model_core.specs.Files.{TraLists, IsTra};

use crate::Rate;
use crate::limits::MOST_STATES;
use std::marker::Model;

/// A chain: its states are the numbers from 0 to n - 1, for n from 1 to 65,536, and its rates have `scale` decimals.
#[derive(Debug, Drop)]
pub struct Tra {
    pub(crate) n: u32,
    pub(crate) scale: u32,
    pub(crate) rates: Vec<Rate>,
}

impl Model for Tra {
    ghost Value = { TraLists };

    ghost view = { λ a. record { n = a.n; scale = a.scale; rates = a.rates.items } };

    ghost invariant = { λ a. IsTra (record { n = a.n; scale = a.scale; rates = a.rates.items }) };
}

impl Tra {
    /// The chain of these transitions, which may come in any order: between states, each at a positive rate, none of
    /// them twice, and with exit rates below `2^63`.
    pub fn new(n: u32, scale: u32, rates: Vec<Rate>) -> Tra
        requires { IsTra (record { n = n; scale = scale; rates = rates.items }) }
        ensures { result ≡ record { n = n; scale = scale; rates = rates.items } }
    {
        Tra { n, scale, rates }
    }

    /// How many states there are.
    pub fn n(&self) -> u32
        ensures value { result ≡ self.now.n }
        ensures some { 1 ≤ result }
        ensures few { result ≤ MOST_STATES }
        ensures lists { IsTra self.now }
    {
        self.n
    }
}
