// A command, and why words are none.
use std::alloc::AllocError;
use std::string::String;

// The words of the kinds.
pub(crate) const CTMC: &str = "ctmc";

pub(crate) const CMRM: &str = "cmrm";

/// A chain without rewards, or one with rewards.
#[derive(Clone, Copy, Debug, PartialEq, Eq)]
pub enum Kind {
    Ctmc,
    Cmrm,
}

/// How a model is checked. Of a command each number is in the range of its option.
#[derive(Clone, Copy, Debug, PartialEq, Eq)]
pub struct Options {
    /// How many workers look at a formula.
    pub workers: u32,
    /// How far a chain is looked at: what lies past the horizon is at most 2^-bits.
    pub bits: u32,
    /// The number of jumps up to which an until without a bound is looked at.
    pub jumps: u32,
    /// How many brackets of the watched state are shown.
    pub watch: u32,
    /// The watched state, counted from 0. On the command line it is counted from 1.
    pub state: u32,
    /// Whether a formula's run ends as soon as the verdict of each state is known.
    pub until_decided: bool,
}

/// The kind of the model, the names of its files, and the options. A `Cmrm` has a file of rewards,
/// and a `Ctmc` has none.
#[derive(Debug, Drop, PartialEq, Eq)]
pub struct Command {
    pub kind: Kind,
    pub tra: String,
    pub lab: String,
    pub rew: Option<String>,
    pub options: Options,
}

/// Why words give no command: they are none, or memory is missing.
#[derive(Clone, Copy, Debug, PartialEq, Eq)]
pub enum WordsFault {
    Usage,
    Memory,
}

impl From<AllocError> for WordsFault {
    ghost use Rattle.std.specs.Prelude.{◌≡◌};
    ghost use Rattle.command_words.specs.declared.command.WordsFault.TheVariants.{Memory};

    ghost from_gives = { λ _ fault. fault ≡ Memory };

    fn from(_: AllocError) -> Self {
        WordsFault::Memory
    }
}
