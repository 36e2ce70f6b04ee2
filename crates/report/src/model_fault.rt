// What is wrong with the files of a model.
ghost use Rattle.std.specs.Prelude.{◌≡◌};

use text_lines::{FileFault, FileWhat};

/// One of the files of a model: that of the chain, of the labels, or of the rewards.
#[derive(Clone, Copy, Debug, PartialEq, Eq)]
pub enum Which {
    TraFile,
    LabFile,
    RewFile,
}

/// What is wrong with a file of the model, and at which of its lines, from 1. At line 0 stand `TooBig`, where the file has
/// more than 64 MiB, and `WatchState`, where the chain doesn't have the state that is to be watched.
#[derive(Clone, Copy, Debug, PartialEq, Eq)]
pub struct ModelFault {
    pub file: Which,
    pub line: u64,
    pub what: FileWhat,
}

impl ModelFault {
    /// The fault of one of the files.
    pub fn of(file: Which, fault: FileFault) -> ModelFault
        ensures file { result.file ≡ file }
        ensures line { result.line ≡ fault.line }
        ensures what { result.what ≡ fault.what }
    {
        ModelFault {
            file,
            line: fault.line,
            what: fault.what,
        }
    }
}
