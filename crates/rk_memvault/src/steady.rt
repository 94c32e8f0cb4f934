// A vault in memory that never fails.
ghost use Rattle.std.specs.Prelude.{◌≡◌, None, Some, IfOk, IsOk, length, refl};
ghost use Rattle.std.proofs.lemmas.Bool.{false≢true};
ghost use Rattle.rk_outside.specs.Disks.{told_files};
ghost use Rattle.rk_memvault.specs.Slots.{files_in, rooms_in};

use crate::reading::fill_from;
use crate::slots::Slots;
use rk_outside::{Counting, Failed, NoMemory, Sealed, Vault, VaultError};
use std::alloc::Global;

/// A file of a [`SteadyVault`] as it was when it was opened. Its reads never fail.
#[derive(Debug, Drop)]
pub struct SteadyFile {
    bytes: Vec<u8>,
}

/// A reader of the sealed files of a [`SteadyVault`]. It counts its reads, and no read fails.
#[derive(Debug, Drop)]
pub struct SteadyReader {
    reads: u64,
}

impl Counting for SteadyReader {
    ghost counts = { λ r. record { faults = 0; reads = r.reads } };

    fn faults(&self) -> u64 {
        0
    }

    fn reads(&self) -> u64 {
        self.reads
    }
}

impl Sealed for SteadyFile {
    type Reader = SteadyReader;

    ghost held = { λ f. Some f.bytes.items };

    ghost extent = { λ f. length f.bytes.items };

    ghost told = { λ f. refl };

    fn size(&self) -> u64 {
        self.bytes.len() as u64
    }

    fn read_at(&self, reader: &mut SteadyReader, at: u64, out: &mut [u8]) -> Result<usize, Failed> {
        reader.reads = reader.reads.saturating_add(1);
        Ok(fill_from(&self.bytes, at, out))
    }
}

/// A vault in memory that never fails: its count of faults is always 0. It tells contents, and no crash facts.
/// Its memory is taken in `make_room`, so the calls that change it need none.
#[derive(Debug, Drop)]
pub struct SteadyVault {
    slots: Slots,
}

impl SteadyVault {
    /// A vault without files. It takes no memory now.
    ///
    /// # Errors
    ///
    /// [`NoMemory`] is never answered.
    pub fn new(alloc: Global) -> Result<SteadyVault, NoMemory>
        ensures files { IfOk result
            (λ v. ⟦<SteadyVault as Vault>⟧.disk v ≡ told_files (λ f. None)) }
        ensures never_refused { IsOk result }
    {
        Ok(SteadyVault {
            slots: Slots::new(alloc),
        })
    }
}

impl Vault for SteadyVault {
    type File = SteadyFile;

    ghost disk = { λ v. told_files (files_in v.slots) };

    ghost room = { λ v. rooms_in v.slots };

    ghost fault_count = { λ _. 0 };

    ghost unnoted = { λ _. 0 };

    ghost honest = { λ v files moments. absurd (false≢true moments) };

    fn numbers(&mut self, alloc: Global) -> Result<Vec<u64>, VaultError> {
        Ok(self.slots.numbers(alloc)?)
    }

    fn make_room(&mut self, alloc: Global, file: u64, upto: u64) -> Result<(), VaultError> {
        Ok(self.slots.make_room(alloc, file, upto)?)
    }

    fn len(&mut self, file: u64) -> Result<Option<u64>, Failed> {
        Ok(self.slots.len(file))
    }

    fn read_at(&mut self, file: u64, at: u64, out: &mut [u8]) -> Result<usize, Failed> {
        Ok(fill_from(self.slots.bytes(file), at, out))
    }

    fn write_at(&mut self, file: u64, at: u64, bytes: &[u8]) -> Result<(), Failed> {
        self.slots.write_at(file, at, bytes);
        Ok(())
    }

    fn cut(&mut self, file: u64, len: u64) -> Result<(), Failed> {
        self.slots.cut(file, len);
        Ok(())
    }

    fn sync(&mut self, _file: u64) -> Result<(), Failed> {
        Ok(())
    }

    fn remove(&mut self, file: u64) -> Result<(), Failed> {
        self.slots.remove(file);
        Ok(())
    }

    fn open_sealed(&mut self, alloc: Global, file: u64) -> Result<SteadyFile, VaultError> {
        let bytes = self.slots.bytes(file).to_vec(alloc)?;
        Ok(SteadyFile { bytes })
    }

    fn reader(&mut self, _alloc: Global) -> Result<SteadyReader, NoMemory> {
        Ok(SteadyReader { reads: 0 })
    }

    fn give_back(&mut self, _reader: SteadyReader) {}

    fn faults(&self) -> u64 {
        0
    }
}
