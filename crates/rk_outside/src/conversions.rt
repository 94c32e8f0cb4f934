// What `?` makes of a want of memory, and of a refusal of a layer below.
ghost use Rattle.std.specs.Prelude.{◌≡◌};
ghost use Rattle.rk_outside.specs.Refusals.{build_error_of, store_error_of, store_error_of_build};
ghost use Rattle.rk_outside.specs.declared.error.SinkError.TheVariants as sink_error;
ghost use Rattle.rk_outside.specs.declared.error.VaultError.TheVariants as vault_error;
ghost use Rattle.rk_outside.specs.declared.error.SourceError.TheVariants as source_error;
ghost use Rattle.rk_outside.specs.declared.error.BuildError.TheVariants as build_error;
ghost use Rattle.rk_outside.specs.declared.error.StoreError.TheVariants as store_error;

use crate::{BuildError, Failed, NoMemory, SinkError, SourceError, StoreError, VaultError};
use std::alloc::{AllocError, AllocFailed};

impl From<AllocError> for NoMemory {
    fn from(_: AllocError) -> Self {
        NoMemory
    }
}

impl<T: Drop> From<AllocFailed<T>> for NoMemory {
    fn from(_: AllocFailed<T>) -> Self {
        NoMemory
    }
}

impl From<AllocError> for SinkError {
    ghost from_gives = { λ _ e. e ≡ sink_error.Memory };

    fn from(_: AllocError) -> Self {
        SinkError::Memory
    }
}

impl<T: Drop> From<AllocFailed<T>> for SinkError {
    ghost from_gives = { λ _ e. e ≡ sink_error.Memory };

    fn from(_: AllocFailed<T>) -> Self {
        SinkError::Memory
    }
}

impl From<NoMemory> for SinkError {
    ghost from_gives = { λ _ e. e ≡ sink_error.Memory };

    fn from(_: NoMemory) -> Self {
        SinkError::Memory
    }
}

impl From<AllocError> for VaultError {
    ghost from_gives = { λ _ e. e ≡ vault_error.Memory };

    fn from(_: AllocError) -> Self {
        VaultError::Memory
    }
}

impl<T: Drop> From<AllocFailed<T>> for VaultError {
    ghost from_gives = { λ _ e. e ≡ vault_error.Memory };

    fn from(_: AllocFailed<T>) -> Self {
        VaultError::Memory
    }
}

impl From<Failed> for VaultError {
    ghost from_gives = { λ _ e. e ≡ vault_error.Failed };

    fn from(_: Failed) -> Self {
        VaultError::Failed
    }
}

impl From<NoMemory> for VaultError {
    ghost from_gives = { λ _ e. e ≡ vault_error.Memory };

    fn from(_: NoMemory) -> Self {
        VaultError::Memory
    }
}

impl From<AllocError> for SourceError {
    ghost from_gives = { λ _ e. e ≡ source_error.Memory };

    fn from(_: AllocError) -> Self {
        SourceError::Memory
    }
}

impl<T: Drop> From<AllocFailed<T>> for SourceError {
    ghost from_gives = { λ _ e. e ≡ source_error.Memory };

    fn from(_: AllocFailed<T>) -> Self {
        SourceError::Memory
    }
}

impl From<NoMemory> for SourceError {
    ghost from_gives = { λ _ e. e ≡ source_error.Memory };

    fn from(_: NoMemory) -> Self {
        SourceError::Memory
    }
}

impl From<AllocError> for BuildError {
    ghost from_gives = { λ _ e. e ≡ build_error.Memory };

    fn from(_: AllocError) -> Self {
        BuildError::Memory
    }
}

impl<T: Drop> From<AllocFailed<T>> for BuildError {
    ghost from_gives = { λ _ e. e ≡ build_error.Memory };

    fn from(_: AllocFailed<T>) -> Self {
        BuildError::Memory
    }
}

impl From<NoMemory> for BuildError {
    ghost from_gives = { λ _ e. e ≡ build_error.Memory };

    fn from(_: NoMemory) -> Self {
        BuildError::Memory
    }
}

impl From<AllocError> for StoreError {
    ghost from_gives = { λ _ e. e ≡ store_error.Memory };

    fn from(_: AllocError) -> Self {
        StoreError::Memory
    }
}

impl<T: Drop> From<AllocFailed<T>> for StoreError {
    ghost from_gives = { λ _ e. e ≡ store_error.Memory };

    fn from(_: AllocFailed<T>) -> Self {
        StoreError::Memory
    }
}

impl From<NoMemory> for StoreError {
    ghost from_gives = { λ _ e. e ≡ store_error.Memory };

    fn from(_: NoMemory) -> Self {
        StoreError::Memory
    }
}

impl From<SourceError> for BuildError {
    ghost from_gives = { λ error e. e ≡ build_error_of error };

    fn from(error: SourceError) -> Self {
        match error {
            SourceError::Memory => BuildError::Memory,
            SourceError::ReadFault { faults } => BuildError::ReadFault { faults },
            SourceError::BadTable { file, at } => BuildError::BadTable { file, at },
        }
    }
}

impl From<SourceError> for StoreError {
    ghost from_gives = { λ error e. e ≡ store_error_of error };

    fn from(error: SourceError) -> Self {
        match error {
            SourceError::Memory => StoreError::Memory,
            SourceError::ReadFault { faults } => StoreError::ReadFault { faults },
            SourceError::BadTable { file, at } => StoreError::BadTable { file, at },
        }
    }
}

impl From<BuildError> for StoreError {
    ghost from_gives = { λ error e. e ≡ store_error_of_build error };

    fn from(error: BuildError) -> Self {
        match error {
            BuildError::Memory => StoreError::Memory,
            BuildError::ReadFault { faults } => StoreError::ReadFault { faults },
            BuildError::BadTable { file, at } => StoreError::BadTable { file, at },
            BuildError::TooLong { what, have, limit } => StoreError::TooLong { what, have, limit },
        }
    }
}
