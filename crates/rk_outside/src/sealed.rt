// Files that no longer change.
ghost use Rattle.std.specs.Prelude.{◌≡◌, ℕ, List, Option, IfSome, IfOk, length};
ghost use Rattle.std.specs.Io.{ReadsAtMost};
ghost use Rattle.rk_outside.specs.Calls.{one_more};
ghost use Rattle.rk_outside.specs.Causes.{HasCause};
ghost use Rattle.rk_outside.specs.Vaults.{Fills};

use crate::{Counting, Failed};

/// A file as it was when it was opened. What becomes of the file in its vault, a removal too, changes nothing
/// of it.
pub trait Sealed: Send + Sync {
    /// What it is read through.
    type Reader: Counting + Send;

    /// Its bytes, where they are told.
    ghost held: { Self → Option (List ℕ) };

    /// How many bytes it has, told or not.
    ghost extent: { Self → ℕ };

    /// How many bytes it has.
    fn size(&self) -> u64
        ensures { result ≡ extent self.now };

    /// Fills the front of `out` with the bytes from the place `at` on, as many as there are, and answers how
    /// many. It counts in the reader alone, and takes no memory.
    ///
    /// # Errors
    ///
    /// [`Failed`] where the read failed. The reader counted it.
    fn read_at(&self, reader: &mut Self::Reader, at: u64, out: &mut [u8]) -> Result<usize, Failed>
        ensures bound { ReadsAtMost result out.new }
        ensures bytes { IfSome (held self.now) (λ bytes. IfOk result (Fills bytes at out.new)) }
        ensures reads { (Self.Reader.counts reader.new).reads ≡ one_more (Self.Reader.counts reader.old).reads }
        ensures cause { HasCause (Self.Reader.counts reader.old).faults (Self.Reader.counts reader.new).faults
            result };

    /// The bytes that are told are as many as it has.
    ghost told: { (s : Self) → IfSome (held s) (λ bytes. length bytes ≡ extent s) };
}
