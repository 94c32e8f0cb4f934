// How often a call of the folder has failed.
ghost use Rattle.std.specs.Prelude.{◌≡◌, false, is_ok, Ok, MatchResult};
ghost use Rattle.rk_outside.specs.Causes.{HasCause, HasCauseOf};

use rk_outside::{Failed, VaultError};
use std::io::{self, ErrorKind};

/// A count of failed calls, which stays at its greatest value.
#[derive(Debug, Drop)]
pub(crate) struct Faults {
    pub(crate) count: u64,
}

impl Faults {
    /// What a call answered, counted where it failed.
    pub(crate) fn noted<T>(&mut self, answer: io::Result<T>) -> Result<T, Failed>
        ensures same { MatchResult answer (λ value. result ≡ Ok value) (λ error. is_ok result ≡ false) }
        ensures cause { HasCause self.old.count self.new.count result }
    {
        match answer {
            Ok(value) => Ok(value),
            Err(_) => {
                self.count = self.count.saturating_add(1);
                Err(Failed)
            }
        }
    }

    /// The same of a call that may say that memory was wanting, which is no fault of the folder.
    pub(crate) fn noted_or_memory<T>(&mut self, answer: io::Result<T>) -> Result<T, VaultError>
        ensures cause { HasCauseOf VaultError.Failed self.old.count self.new.count result }
    {
        match answer {
            Err(error) if error.kind() == ErrorKind::OutOfMemory => Err(VaultError::Memory),
            answer => Ok(self.noted(answer)?),
        }
    }
}
