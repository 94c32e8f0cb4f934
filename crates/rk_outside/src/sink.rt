// What can be written piece by piece.
ghost use Rattle.std.specs.Prelude.{◌≡◌, List, ℕ, Bool, false, Option, Some, IsTrue, IsFalse, IfSome, OnOk, IsErrOf, is_err};
ghost use Rattle.std.specs.Io.{WritesAtMost};
ghost use Rattle.std.specs.Io.KnownBytes.{Keeps};
ghost use Rattle.rk_outside.specs.Calls.{faults_after, is_failed};
ghost use Rattle.rk_outside.specs.Causes.{HasCause, HasCauseOf};
ghost use Rattle.rk_outside.specs.Sinks.{TakesSome, AddsTaken, AppendsPrefix};
ghost use Rattle.rk_outside.specs.Adapters.{sink_writer};

use crate::{Failed, SinkError};
use std::io::Write;

/// What is written piece by piece, and counts its faults.
pub trait Sink {
    /// What was written, where it is told.
    ghost written: { Self → Option (List ℕ) };

    /// Whether all that was written has been handed on, where it is told.
    ghost finished: { Self → Option Bool };

    /// How often a call has failed.
    ghost fault_count: { Self → ℕ };

    /// Takes some of the first bytes of a piece and answers how many, at least one of a piece that is not
    /// empty. Without memory it takes nothing. A call that fails may have taken some of the first bytes.
    fn write(&mut self, bytes: &[u8]) -> Result<usize, SinkError>
        ensures taken { WritesAtMost result bytes.now }
        ensures some { TakesSome result bytes.now }
        ensures ok { AddsTaken (written self.old) (written self.new) result bytes.now }
        ensures memory { IsErrOf result SinkError.Memory → Keeps (written self.old) (written self.new) }
        ensures failed { IsErrOf result SinkError.Failed →
            AppendsPrefix (written self.old) (written self.new) bytes.now }
        ensures open { OnOk result (IfSome (finished self.new) IsFalse) }
        ensures cause { HasCauseOf SinkError.Failed (fault_count self.old) (fault_count self.new) result };

    /// Hands on what was written so far. Whatever it answers, it adds nothing.
    fn finish(&mut self) -> Result<(), Failed>
        ensures kept { Keeps (written self.old) (written self.new) }
        ensures finished { OnOk result (IfSome (finished self.new) IsTrue) }
        ensures cause { HasCause (fault_count self.old) (fault_count self.new) result };

    /// How often a call has failed. At its greatest value the count stays.
    fn faults(&self) -> u64
        ensures { result ≡ fault_count self.now };
}

/// A sink over a writer of `std`. Each error of the writer is a fault, and so is a write that takes nothing
/// of a piece that is not empty. It counts as finished from a flush that was well up to the next write.
#[derive(Debug, Drop)]
pub struct WriteSink<W> {
    inner: W,
    finished: bool,
    faults: u64,
}

impl<W: Write> WriteSink<W> {
    /// Writes behind what this writer holds.
    pub fn new(inner: W) -> WriteSink<W>
        ensures written { ⟦<WriteSink<W> as Sink>⟧.written result ≡ W.contents inner }
        ensures open { ⟦<WriteSink<W> as Sink>⟧.finished result ≡ Some false }
        ensures faults { ⟦<WriteSink<W> as Sink>⟧.fault_count result ≡ 0 }
        ensures writer { sink_writer result ≡ inner }
    {
        WriteSink {
            inner,
            finished: false,
            faults: 0,
        }
    }

    /// Gives the writer back.
    pub fn into_inner(self) -> W
        ensures { result ≡ sink_writer self }
    {
        let WriteSink { inner, .. } = self;
        inner
    }
}

impl<W: Write> Sink for WriteSink<W> {
    ghost written = { λ s. W.contents s.inner };

    ghost finished = { λ s. Some s.finished };

    ghost fault_count = { λ s. s.faults };

    fn write(&mut self, bytes: &[u8]) -> Result<usize, SinkError>
        ensures taken { WritesAtMost result bytes.now }
        ensures some { TakesSome result bytes.now }
        ensures ok { AddsTaken (W.contents self.old.inner) (W.contents self.new.inner) result
            bytes.now }
        ensures failed { IsErrOf result SinkError.Failed →
            AppendsPrefix (W.contents self.old.inner) (W.contents self.new.inner) bytes.now }
        ensures open { IsFalse self.new.finished }
        ensures cause { HasCauseOf SinkError.Failed self.old.faults self.new.faults result }
        ensures counted { self.new.faults ≡ faults_after (is_failed result) self.old.faults }
        ensures never_memory { IsErrOf result SinkError.Memory → ⊥ }
    {
        self.finished = false;
        match self.inner.write(bytes) {
            Ok(count) if count > 0 || bytes.is_empty() => Ok(count),
            _ => {
                self.faults = self.faults.saturating_add(1);
                Err(SinkError::Failed)
            }
        }
    }

    fn finish(&mut self) -> Result<(), Failed>
        ensures kept { Keeps (W.contents self.old.inner) (W.contents self.new.inner) }
        ensures finished { OnOk result (IsTrue self.new.finished) }
        ensures cause { HasCause self.old.faults self.new.faults result }
        ensures counted { self.new.faults ≡ faults_after (is_err result) self.old.faults }
    {
        match self.inner.flush() {
            Ok(()) => {
                self.finished = true;
                Ok(())
            }
            Err(_) => {
                self.faults = self.faults.saturating_add(1);
                Err(Failed)
            }
        }
    }

    fn faults(&self) -> u64 {
        self.faults
    }
}
