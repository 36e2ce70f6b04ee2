// What can be wrong with a file.
ghost use Rattle.std.specs.Prelude.{◌≡◌};

use decimal_text::NumberFault;
use std::alloc::AllocError;

/// What is wrong with a file of a model.
#[derive(Clone, Copy, Debug, PartialEq, Eq)]
pub enum FileWhat {
    /// A line that each such file has, at its head or after its declarations, is missing or isn't of
    /// its form.
    Header,
    /// The number of states is out of range.
    StatesRange,
    /// The number of transitions is out of range.
    TransitionsRange,
    /// The words of the line are not as many as they must be, or one that must be a whole number is
    /// none.
    Word,
    /// The number of a state is out of range.
    StateRange,
    /// A word isn't a number that can be read.
    Number(NumberFault),
    /// There are more lines than the file announces, or fewer.
    Count,
    /// What the line gives was given by an earlier line.
    Repeated,
    /// The rates of a state add up to too much.
    RateRange,
    /// A word that must be a name is none.
    Name,
    /// A name was declared before.
    RepeatedName,
    /// A name was not declared.
    Undeclared,
    /// There are more labels than are allowed.
    LabelsRange,
    /// A reward is too large at the scale that the file needs.
    RewardScale,
    /// The file is too long.
    TooBig,
    /// The state to be watched is not in the model.
    WatchState,
}

/// What is wrong with a file, and at which of its lines, from 1. Where it is at none, `line` is 0.
#[derive(Clone, Copy, Debug, PartialEq, Eq)]
pub struct FileFault {
    pub line: u64,
    pub what: FileWhat,
}

/// Why a file was not read: a fault of the file, or want of memory.
#[derive(Clone, Copy, Debug, PartialEq, Eq)]
pub enum ReadFault {
    At(FileFault),
    Memory,
}

impl ReadFault {
    /// The fault at the line of this number.
    pub fn at(line: u64, what: FileWhat) -> ReadFault
        ensures { result ≡ ReadFault.At (record { line = line; what = what }) }
    {
        ReadFault::At(FileFault { line, what })
    }
}

impl From<AllocError> for ReadFault {
    ghost use Rattle.std.specs.Prelude.{◌≡◌};
    ghost use Rattle.text_lines.specs.declared.fault.ReadFault.TheVariants.{Memory};

    ghost from_gives = { λ _ fault. fault ≡ Memory };

    fn from(_: AllocError) -> Self {
        ReadFault::Memory
    }
}
