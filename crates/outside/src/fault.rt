// What a call of the outside answers in place of its work.
ghost use Rattle.std.specs.Prelude.{◌≡◌};

use std::alloc::{AllocError, AllocFailed};

/// The outside failed: a file that isn't there or can't be read, a stream that can't be read or written. The count of
/// faults of the object rose, or stands at its last value.
#[derive(Clone, Copy, Debug, PartialEq, Eq)]
pub struct Failed;

/// Why a file, or a stream as a whole, wasn't taken.
#[derive(Clone, Copy, Debug, PartialEq, Eq)]
pub enum TakeFault {
    /// The outside failed, and the count of faults says so too.
    Failed,
    /// It has more bytes than the limit.
    TooBig,
    /// There was no memory for the bytes.
    Memory,
}

/// Why a piece wasn't written.
#[derive(Clone, Copy, Debug, PartialEq, Eq)]
pub enum PutFault {
    /// The outside failed, and the count of faults says so too.
    Failed,
    /// There was no memory for the bytes: only a sink that keeps them answers this.
    Memory,
}

impl From<Failed> for TakeFault {
    ghost use Rattle.outside.specs.declared.fault.TakeFault.TheVariants.{Failed};

    ghost from_gives = { λ _ fault. fault ≡ Failed };

    fn from(_: Failed) -> Self {
        TakeFault::Failed
    }
}

impl From<AllocError> for TakeFault {
    ghost use Rattle.outside.specs.declared.fault.TakeFault.TheVariants.{Memory};

    ghost from_gives = { λ _ fault. fault ≡ Memory };

    fn from(_: AllocError) -> Self {
        TakeFault::Memory
    }
}

impl<T: Drop> From<AllocFailed<T>> for TakeFault {
    ghost use Rattle.outside.specs.declared.fault.TakeFault.TheVariants.{Memory};

    ghost from_gives = { λ _ fault. fault ≡ Memory };

    fn from(_: AllocFailed<T>) -> Self {
        TakeFault::Memory
    }
}

impl From<AllocError> for PutFault {
    ghost use Rattle.outside.specs.declared.fault.PutFault.TheVariants.{Memory};

    ghost from_gives = { λ _ fault. fault ≡ Memory };

    fn from(_: AllocError) -> Self {
        PutFault::Memory
    }
}
