ghost use Rattle.std.specs.Prelude.{◌≡◌};
ghost use Rattle.rk_batch.specs.declared.error.BatchError.TheVariants.{Memory};

use rk_key::Which;
use rk_outside::{NoMemory, What};
use std::alloc::{AllocError, AllocFailed};

/// Why an operation was not added to a batch, or bytes are no batch.
#[derive(Clone, Copy, Debug, PartialEq, Eq)]
pub enum BatchError {
    /// There is no memory.
    Memory,
    /// The bytes are no key, or no suffix. `at` is the length of their longest prefix that begins one.
    BadKey { which: Which, at: usize },
    /// The start of a span is not below its end.
    EmptySpan,
    /// The start or the end of a span has a suffix.
    SuffixInBound { which: Which },
    /// A value, the count of operations or the batch's bytes would pass their limit. `have` is the length or
    /// count that would be reached.
    TooLong { what: What, have: u64, limit: u64 },
    /// The bytes are no batch. `at` is the start of the first operation that is none, or 0 for the head, or
    /// the end of the operations where bytes follow.
    BadBatch { at: usize },
}

impl From<NoMemory> for BatchError {
    ghost from_gives = { λ _ e. e ≡ Memory };

    fn from(_: NoMemory) -> Self {
        BatchError::Memory
    }
}

impl From<AllocError> for BatchError {
    ghost from_gives = { λ _ e. e ≡ Memory };

    fn from(_: AllocError) -> Self {
        BatchError::Memory
    }
}

impl<T: Drop> From<AllocFailed<T>> for BatchError {
    ghost from_gives = { λ _ e. e ≡ Memory };

    fn from(_: AllocFailed<T>) -> Self {
        BatchError::Memory
    }
}
