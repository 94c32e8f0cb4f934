// What calls of a store in memory answer.
ghost use Rattle.std.specs.Prelude.{◌≡◌, Ok, Err, MatchResult};
ghost use Rattle.rk_outside.specs.declared.error.StoreError.TheVariants as store_error;

use rk_outside::{NoMemory, StoreError};

/// The numbers of a commit's operations.
#[derive(Clone, Copy, Debug, PartialEq, Eq)]
pub struct Numbers {
    /// That of the first operation.
    pub first: u64,
    /// That of the last one.
    pub last: u64,
}

// Want of memory, as the store tells it.
pub(crate) fn or_memory<T>(found: Result<T, NoMemory>) -> Result<T, StoreError>
    ensures { MatchResult found (λ t. result ≡ Ok t) (λ _. result ≡ Err store_error.Memory) }
{
    match found {
        Ok(value) => Ok(value),
        Err(NoMemory) => Err(StoreError::Memory),
    }
}
