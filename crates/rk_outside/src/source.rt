// What can be read piece by piece.
ghost use Rattle.std.specs.Prelude.{◌≡◌, List, ℕ, Option, is_err};
ghost use Rattle.std.specs.Io.{ReadsAtMost};
ghost use Rattle.std.specs.Io.KnownBytes.{ReadConsumes};
ghost use Rattle.rk_outside.specs.Calls.{faults_after};
ghost use Rattle.rk_outside.specs.Causes.{HasCause};
ghost use Rattle.rk_outside.specs.Adapters.{source_reader};

use crate::Failed;
use std::io::Read;

/// What is read piece by piece, and counts its faults.
pub trait Source {
    /// What is left to read, where it is told.
    ghost left: { Self → Option (List ℕ) };

    /// How often a call has failed.
    ghost fault_count: { Self → ℕ };

    /// Fills the front of `out` and answers how many bytes that was. For an `out` that is not empty, 0 is
    /// the end of the input. A call that fails takes nothing of the input.
    fn read(&mut self, out: &mut [u8]) -> Result<usize, Failed>
        ensures bound { ReadsAtMost result out.new }
        ensures bytes { ReadConsumes (left self.old) (left self.new) result out.new }
        ensures cause { HasCause (fault_count self.old) (fault_count self.new) result };

    /// How often a call has failed. At its greatest value the count stays.
    fn faults(&self) -> u64
        ensures { result ≡ fault_count self.now };
}

/// A source over a reader of `std`. Each error of the reader is a fault.
#[derive(Debug, Drop)]
pub struct ReadSource<R> {
    inner: R,
    faults: u64,
}

impl<R: Read> ReadSource<R> {
    /// Reads what this reader has left.
    pub fn new(inner: R) -> ReadSource<R>
        ensures left { ⟦<ReadSource<R> as Source>⟧.left result ≡ R.remaining inner }
        ensures faults { ⟦<ReadSource<R> as Source>⟧.fault_count result ≡ 0 }
        ensures reader { source_reader result ≡ inner }
    {
        ReadSource { inner, faults: 0 }
    }

    /// Gives the reader back.
    pub fn into_inner(self) -> R
        ensures { result ≡ source_reader self }
    {
        let ReadSource { inner, faults: _ } = self;
        inner
    }
}

impl<R: Read> Source for ReadSource<R> {
    ghost left = { λ s. R.remaining s.inner };

    ghost fault_count = { λ s. s.faults };

    fn read(&mut self, out: &mut [u8]) -> Result<usize, Failed>
        ensures bound { ReadsAtMost result out.new }
        ensures bytes { ReadConsumes (R.remaining self.old.inner) (R.remaining self.new.inner) result
            out.new }
        ensures cause { HasCause self.old.faults self.new.faults result }
        ensures counted { self.new.faults ≡ faults_after (is_err result) self.old.faults }
    {
        match self.inner.read(out) {
            Ok(count) => Ok(count),
            Err(_) => {
                self.faults = self.faults.saturating_add(1);
                Err(Failed)
            }
        }
    }

    fn faults(&self) -> u64 {
        self.faults
    }
}
