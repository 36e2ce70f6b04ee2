// The states' labels.
ghost use Rattle.std.specs.Prelude.{◌≡◌};
ghost use Rattle.model_core.specs.Files.{LabLists, IsLab};

use std::marker::Model;
use text_lines::Name;

/// Labels: at most 64 names, and for each state a word of marks, where bit j says that the state has label j.
#[derive(Debug, Drop)]
pub struct Lab {
    pub(crate) names: Vec<Name>,
    pub(crate) marks: Vec<u64>,
}

impl Model for Lab {
    ghost Value = { LabLists };

    ghost view = { λ a. record { names = a.names.items; marks = a.marks.items } };

    ghost invariant = { λ a. IsLab (record { names = a.names.items; marks = a.marks.items }) };
}

impl Lab {
    /// The names are all different, and no mark is of a label without a name.
    pub fn new(names: Vec<Name>, marks: Vec<u64>) -> Lab
        requires { IsLab (record { names = names.items; marks = marks.items }) }
        ensures { result ≡ record { names = names.items; marks = marks.items } }
    {
        Lab { names, marks }
    }
}
