// Sources and sinks in memory: some fail at listed calls, and the steady ones never fail.
ghost use Rattle.std.specs.Prelude.{◌≡◌, ◌↔◌, ◌++◌, [], length, drop, min, Some, IsOk, IsErr, IfOk, OnOk, OnErr, IsErrOf, is_err, IsTrue, IsFalse, false};
ghost use Rattle.std.specs.Io.{ReadsAtMost, WritesAtMost};
ghost use Rattle.std.specs.Io.KnownBytes.{ReadConsumes, Keeps};
ghost use Rattle.rk_outside.specs.Calls.{IsNextListed, no_calls, after_call, is_failed};
ghost use Rattle.rk_outside.specs.Causes.{HasCause, HasCauseOf};
ghost use Rattle.rk_outside.specs.Sinks.{TakesSome, AddsTaken, AppendsPrefix};

use crate::schedule::Schedule;
use crate::{Failed, Sink, SinkError, Source};
use std::alloc::Global;
use std::io::Read;
use std::marker::Model;

/// A source over bytes in memory that fails at the listed calls of `read`, numbered from 1.
#[derive(Debug, Drop)]
pub struct SliceSource<'a> {
    left: &'a [u8],
    schedule: Schedule<'a>,
}

impl<'a> Model for SliceSource<'a> {
    ghost use Rattle.rk_outside.specs.Calls.{Reading};

    ghost Value = { Reading };

    ghost view = { λ s. record { left = s.left.now; calls = s.schedule } };
}

impl<'a> SliceSource<'a> {
    /// Gives these bytes, and fails at these calls. It takes no memory.
    pub fn new(bytes: &'a [u8], fail: &'a [u64]) -> SliceSource<'a>
        ensures { result ≡ record { left = bytes.now; calls = no_calls fail.now } }
    {
        SliceSource {
            left: bytes,
            schedule: Schedule::new(fail),
        }
    }
}

impl Source for SliceSource<'_> {
    ghost left = { λ s. Some s.left };

    ghost fault_count = { λ s. s.calls.faults };

    fn read(&mut self, out: &mut [u8]) -> Result<usize, Failed>
        ensures bound { ReadsAtMost result out.new }
        ensures bytes { ReadConsumes (Some self.old.left) (Some self.new.left) result out.new }
        ensures cause { HasCause self.old.calls.faults self.new.calls.faults result }
        ensures filled { IfOk result (λ n. n ≡ min (length self.old.left) (length out.old)) }
        ensures rest { IfOk result (λ n. drop n out.new ≡ drop n out.old) }
        ensures untouched { OnErr result (out.new ≡ out.old) }
        ensures listed { IsErr result ↔ IsNextListed self.old.calls }
        ensures counted { self.new.calls ≡ after_call (is_err result) self.old.calls }
    {
        if self.schedule.next_fails() {
            return Err(Failed);
        }
        self.left.read(out).map_err(|_| Failed)
    }

    fn faults(&self) -> u64 {
        self.schedule.faults()
    }
}

/// A source over bytes in memory that never fails.
#[derive(Debug, Drop)]
pub struct SteadySource<'a> {
    left: &'a [u8],
}

impl<'a> Model for SteadySource<'a> {
    ghost use Rattle.std.specs.Prelude.{List, ℕ};

    ghost Value = { List ℕ };

    ghost view = { λ s. s.left.now };
}

impl<'a> SteadySource<'a> {
    /// Gives these bytes. It takes no memory.
    pub fn new(bytes: &'a [u8]) -> SteadySource<'a>
        ensures { result ≡ bytes.now }
    {
        SteadySource { left: bytes }
    }
}

impl Source for SteadySource<'_> {
    ghost left = { λ s. Some s };

    ghost fault_count = { λ _. 0 };

    fn read(&mut self, out: &mut [u8]) -> Result<usize, Failed>
        ensures bound { ReadsAtMost result out.new }
        ensures bytes { ReadConsumes (Some self.old) (Some self.new) result out.new }
        ensures cause { HasCause 0 0 result }
        ensures filled { IfOk result (λ n. n ≡ min (length self.old) (length out.old)) }
        ensures rest { IfOk result (λ n. drop n out.new ≡ drop n out.old) }
        ensures never_failed { IsOk result }
    {
        self.left.read(out).map_err(|_| Failed)
    }

    fn faults(&self) -> u64 {
        0
    }
}

/// A sink in memory that fails at the listed calls of `write` and `finish`, numbered together from 1.
/// A write that fails, or finds no memory, takes nothing. Any other takes the whole piece.
#[derive(Debug, Drop)]
pub struct VecSink<'a> {
    written: Vec<u8>,
    finished: bool,
    schedule: Schedule<'a>,
}

impl<'a> Model for VecSink<'a> {
    ghost use Rattle.rk_outside.specs.Calls.{Writing};

    ghost Value = { Writing };

    ghost view = { λ s. record { written = s.written.items; finished = s.finished; calls = s.schedule } };
}

impl<'a> VecSink<'a> {
    /// An empty sink that fails at these calls. It takes no memory.
    pub fn new(alloc: Global, fail: &'a [u64]) -> VecSink<'a>
        ensures { result ≡ record { written = []; finished = false; calls = no_calls fail.now } }
    {
        VecSink {
            written: Vec::new(alloc),
            finished: false,
            schedule: Schedule::new(fail),
        }
    }

    /// Lends what was written.
    pub fn bytes(&self) -> &[u8]
        ensures { result.now ≡ self.now.written }
    {
        &self.written
    }
}

impl Sink for VecSink<'_> {
    ghost written = { λ s. Some s.written };

    ghost finished = { λ s. Some s.finished };

    ghost fault_count = { λ s. s.calls.faults };

    fn write(&mut self, bytes: &[u8]) -> Result<usize, SinkError>
        ensures taken { WritesAtMost result bytes.now }
        ensures some { TakesSome result bytes.now }
        ensures ok { AddsTaken (Some self.old.written) (Some self.new.written) result bytes.now }
        ensures memory { IsErrOf result SinkError.Memory →
            Keeps (Some self.old.written) (Some self.new.written) }
        ensures failed { IsErrOf result SinkError.Failed →
            AppendsPrefix (Some self.old.written) (Some self.new.written) bytes.now }
        ensures cause { HasCauseOf SinkError.Failed self.old.calls.faults self.new.calls.faults result }
        ensures whole { IfOk result (λ n. n ≡ length bytes.now) }
        ensures added { OnOk result (self.new.written ≡ self.old.written ++ bytes.now) }
        ensures open { OnOk result (IsFalse self.new.finished) }
        ensures kept { OnErr result ((self.new.written ≡ self.old.written) × (self.new.finished ≡ self.old.finished)) }
        ensures listed { IsErrOf result SinkError.Failed ↔ IsNextListed self.old.calls }
        ensures counted { self.new.calls ≡ after_call (is_failed result) self.old.calls }
    {
        if self.schedule.next_fails() {
            return Err(SinkError::Failed);
        }
        self.written.extend_from_slice(bytes)?;
        self.finished = false;
        Ok(bytes.len())
    }

    fn finish(&mut self) -> Result<(), Failed>
        ensures kept { Keeps (Some self.old.written) (Some self.new.written) }
        ensures finished { OnOk result (IsTrue self.new.finished) }
        ensures as_before { OnErr result (self.new.finished ≡ self.old.finished) }
        ensures cause { HasCause self.old.calls.faults self.new.calls.faults result }
        ensures listed { IsErr result ↔ IsNextListed self.old.calls }
        ensures counted { self.new.calls ≡ after_call (is_err result) self.old.calls }
    {
        if self.schedule.next_fails() {
            Err(Failed)
        } else {
            self.finished = true;
            Ok(())
        }
    }

    fn faults(&self) -> u64 {
        self.schedule.faults()
    }
}

/// A sink in memory that never fails. A write that finds no memory takes nothing. Any other takes the whole
/// piece.
#[derive(Debug, Drop)]
pub struct SteadySink {
    bytes: Vec<u8>,
    finished: bool,
}

impl Model for SteadySink {
    ghost use Rattle.rk_outside.specs.Calls.{Steady};

    ghost Value = { Steady };

    ghost view = { λ s. record { written = s.bytes.items; finished = s.finished } };
}

impl SteadySink {
    /// An empty sink. It takes no memory.
    pub fn new(alloc: Global) -> SteadySink
        ensures { result ≡ record { written = []; finished = false } }
    {
        SteadySink {
            bytes: Vec::new(alloc),
            finished: false,
        }
    }

    /// Lends what was written.
    pub fn bytes(&self) -> &[u8]
        ensures { result.now ≡ self.now.written }
    {
        &self.bytes
    }
}

impl Sink for SteadySink {
    ghost written = { λ s. Some s.written };

    ghost finished = { λ s. Some s.finished };

    ghost fault_count = { λ _. 0 };

    fn write(&mut self, bytes: &[u8]) -> Result<usize, SinkError>
        ensures taken { WritesAtMost result bytes.now }
        ensures some { TakesSome result bytes.now }
        ensures ok { AddsTaken (Some self.old.written) (Some self.new.written) result bytes.now }
        ensures memory { IsErrOf result SinkError.Memory →
            Keeps (Some self.old.written) (Some self.new.written) }
        ensures failed { IsErrOf result SinkError.Failed →
            AppendsPrefix (Some self.old.written) (Some self.new.written) bytes.now }
        ensures cause { HasCauseOf SinkError.Failed 0 0 result }
        ensures whole { IfOk result (λ n. n ≡ length bytes.now) }
        ensures added { OnOk result (self.new.written ≡ self.old.written ++ bytes.now) }
        ensures open { OnOk result (IsFalse self.new.finished) }
        ensures kept { OnErr result (self.new ≡ self.old) }
        ensures never_failed { IsErrOf result SinkError.Failed → ⊥ }
    {
        self.bytes.extend_from_slice(bytes)?;
        self.finished = false;
        Ok(bytes.len())
    }

    fn finish(&mut self) -> Result<(), Failed>
        ensures kept { Keeps (Some self.old.written) (Some self.new.written) }
        ensures finished { OnOk result (IsTrue self.new.finished) }
        ensures cause { HasCause 0 0 result }
        ensures never_failed { IsOk result }
    {
        self.finished = true;
        Ok(())
    }

    fn faults(&self) -> u64 {
        0
    }
}
