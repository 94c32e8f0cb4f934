// Sealed files in memory, and readers that fail at listed reads.
ghost use Rattle.std.specs.Prelude.{◌≡◌, ◌↔◌, Some, IfOk, IsErr, is_err, length, refl};
ghost use Rattle.std.specs.Io.{ReadsAtMost};
ghost use Rattle.rk_outside.specs.Calls.{IsNextListed, no_calls, after_call, one_more};
ghost use Rattle.rk_outside.specs.Causes.{HasCause};
ghost use Rattle.rk_outside.specs.Vaults.{Fills};

use crate::reading::fill_from;
use crate::schedule::Schedule;
use rk_outside::{Counting, Failed, Sealed};
use std::marker::Model;

/// A file of a [`MemVault`](crate::MemVault) as it was when it was opened. Contracts see its bytes.
#[derive(Debug, Drop)]
pub struct MemFile {
    bytes: Vec<u8>,
}

impl Model for MemFile {
    ghost use Rattle.std.specs.Prelude.{List, ℕ};

    ghost Value = { List ℕ };

    ghost view = { λ f. f.bytes.items };
}

impl MemFile {
    pub(crate) fn new(bytes: Vec<u8>) -> MemFile
        ensures { result ≡ bytes.items }
    {
        MemFile { bytes }
    }
}

/// A reader of the sealed files of a [`MemVault`](crate::MemVault). It fails at the listed reads, numbered from 1.
#[derive(Debug, Drop)]
pub struct MemReader {
    calls: Schedule,
}

impl Model for MemReader {
    ghost use Rattle.rk_outside.specs.Calls.{Calls};

    ghost Value = { Calls };

    ghost view = { λ r. r.calls };
}

impl MemReader {
    pub(crate) fn new(fail: Vec<u64>) -> MemReader
        ensures { result ≡ no_calls fail.items }
    {
        MemReader {
            calls: Schedule::new(fail),
        }
    }
}

impl Counting for MemReader {
    ghost counts = { λ r. record { faults = r.faults; reads = r.made } };

    fn faults(&self) -> u64 {
        self.calls.faults()
    }

    fn reads(&self) -> u64 {
        self.calls.made()
    }
}

impl Sealed for MemFile {
    type Reader = MemReader;

    ghost held = { λ f. Some f };

    ghost extent = { λ f. length f };

    ghost told = { λ f. refl };

    fn size(&self) -> u64 {
        self.bytes.len() as u64
    }

    fn read_at(&self, reader: &mut MemReader, at: u64, out: &mut [u8]) -> Result<usize, Failed>
        ensures bound { ReadsAtMost result out.new }
        ensures bytes { IfOk result (Fills self.now at out.new) }
        ensures reads { reader.new.made ≡ one_more reader.old.made }
        ensures cause { HasCause reader.old.faults reader.new.faults result }
        ensures listed { IsErr result ↔ IsNextListed reader.old }
        ensures counted { reader.new ≡ after_call (is_err result) reader.old }
    {
        let fails = reader.calls.is_next_listed();
        reader.calls.count(fails);
        if fails {
            return Err(Failed);
        }
        Ok(fill_from(&self.bytes, at, out))
    }
}
