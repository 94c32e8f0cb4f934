// A vault in memory that fails at listed calls and keeps a record of them.
ghost use Rattle.std.specs.Prelude.{◌≡◌, ◌+◌, ◌≤◌, ◌<◌, [], Some, IfOk, IfSome, IsSome, OnOk, is_ok, is_err, length, option_map, refl};
ghost use Rattle.std.specs.Io.{ReadsAtMost};
ghost use Rattle.rk_outside.specs.Calls.{no_calls};
ghost use Rattle.rk_outside.specs.Causes.{HasCause, HasCauseOf};
ghost use Rattle.rk_outside.specs.Disks.{TellsFiles, bytes_in, Write, Cut, Sync, Remove, Changes};
ghost use Rattle.rk_outside.specs.Vaults.{Fills, AreNumbers, RoomsStay, TakesBack};
ghost use Rattle.rk_memvault.specs.Slots.{rooms_in};
ghost use Rattle.rk_memvault.specs.Records.{disk_of, is_failed, IsCounted, ChangesNothing};
ghost use Rattle.rk_memvault.specs.Images.{AreImagesAt, AreLeftAt};
ghost use Rattle.rk_memvault.specs.Honesty.{disk_honest};

use crate::images::{images_of, scene_at};
use crate::reading::fill_from;
use crate::record::{Call, Edit, Record};
use crate::sealed::{MemFile, MemReader};
use crate::slots::Slots;
use rk_outside::{Bytes, Counting, Failed, NoMemory, Vault, VaultError};
use std::alloc::Global;
use std::marker::Model;

/// A vault in memory that fails at listed calls, and keeps a record of its calls. It tells contents and crash facts:
/// its disk is a replay of the record.
#[derive(Debug, Drop)]
pub struct MemVault {
    slots: Slots,
    origin: Vec<(u64, Bytes)>,
    kept: Record,
    fail_reads: Vec<u64>,
}

impl Model for MemVault {
    ghost use Rattle.rk_memvault.specs.Records.{Memory, IsTied};

    ghost Value = { Memory };

    ghost view = { λ v. record { slots = v.slots; origin = v.origin.items; kept = v.kept; fail_reads = v.fail_reads.items } };

    ghost invariant = { λ v. IsTied (record { slots = v.slots; origin = v.origin.items; kept = v.kept; fail_reads = v.fail_reads.items }) };
}

impl MemVault {
    /// A vault without files, which fails the calls of `fail` by number, counted from 1 over all calls that may
    /// fail, and of each reader the reads of `fail_reads`.
    ///
    /// # Errors
    ///
    /// [`NoMemory`] where there is none for the two lists.
    pub fn new(alloc: Global, fail: &[u64], fail_reads: &[u64]) -> Result<MemVault, NoMemory>
        ensures { IfOk result (λ v. v ≡ record {
          slots = [];
          origin = [];
          kept = record { entries = []; calls = no_calls fail.now; starved = 0 };
          fail_reads = fail_reads.now;
        }) }
    {
        let fail = fail.to_vec(alloc)?;
        let fail_reads = fail_reads.to_vec(alloc)?;
        Ok(MemVault {
            slots: Slots::new(alloc),
            origin: Vec::new(alloc),
            kept: Record::new(alloc, fail),
            fail_reads,
        })
    }

    // A vault after a crash that left these files. None of its calls is listed.
    pub(crate) fn restarted(alloc: Global, files: Vec<(u64, Bytes)>) -> Result<MemVault, NoMemory>
        ensures origin { IfOk result (λ v. v.origin ≡ files.items) }
        ensures kept { IfOk result (λ v. v.kept ≡ record { entries = []; calls = no_calls []; starved = 0 }) }
        ensures reads { IfOk result (λ v. v.fail_reads ≡ []) }
    {
        Ok(MemVault {
            slots: Slots::of(alloc, &files)?,
            origin: files,
            kept: Record::new(alloc, Vec::new(alloc)),
            fail_reads: Vec::new(alloc),
        })
    }

    /// Crash images of a moment, each a vault that has just begun with the files that the crash left, and none of
    /// whose calls is listed. The moment 0 is the beginning, and each change is one moment more. Bytes that a crash
    /// leaves free are first as they were read last, then as if nothing had been written since the last sync, and
    /// then `fill`; of each of these there is an image with the files that were made or removed since their last
    /// sync, and one without them. At a moment that has not come there is none.
    ///
    /// It replays the record, and each write in it takes time in the length of its file.
    ///
    /// # Errors
    ///
    /// [`NoMemory`] where there is none for the images.
    pub fn images(&self, alloc: Global, moment: u64, fill: u8) -> Result<Vec<MemVault>, NoMemory>
        ensures images { IfOk result (λ images. AreImagesAt fill moment self.now images.items) }
        ensures left { IfOk result (λ images. AreLeftAt moment self.now images.items) }
    {
        match scene_at(alloc, &self.origin, self.kept.entries(), moment, fill)? {
            Some(scene) => images_of(alloc, &scene),
            None => Ok(Vec::new(alloc)),
        }
    }

    // Notes a call that changes nothing.
    fn note(&mut self, call: Call) -> Result<(), Failed>
        requires { ChangesNothing call }
        ensures same { disk_of self.new ≡ disk_of self.old }
        ensures slots { self.new.slots ≡ self.old.slots }
        ensures counted { IsCounted (is_err result) self.old.kept self.new.kept }
        ensures later { self.old.kept.starved ≤ self.new.kept.starved }
        ensures faults { self.old.kept.calls.faults ≤ self.new.kept.calls.faults }
    {
        self.kept.note(call)
    }

    // Makes room, and notes nothing.
    fn grow(&mut self, alloc: Global, file: u64, upto: u64) -> Result<(), NoMemory>
        ensures made { OnOk result (upto ≤ rooms_in self.new.slots file) }
        ensures same { disk_of self.new ≡ disk_of self.old }
        ensures rooms { RoomsStay (rooms_in self.old.slots) (rooms_in self.new.slots) }
        ensures kept { self.new.kept ≡ self.old.kept }
    {
        self.slots.make_room(alloc, file, upto)
    }

    /// How often the record found no memory for a call, which then failed and did nothing. At its greatest value
    /// the count stays. It takes no memory.
    pub fn starved(&self) -> u64
        ensures { result ≡ self.now.kept.starved }
    {
        self.kept.starved()
    }
}

impl Vault for MemVault {
    type File = MemFile;

    ghost disk = { disk_of };

    ghost room = { λ v. rooms_in v.slots };

    ghost fault_count = { λ v. v.kept.calls.faults };

    ghost unnoted = { λ v. v.kept.starved };

    ghost honest = { λ v files moments. disk_honest v };

    fn numbers(&mut self, alloc: Global) -> Result<Vec<u64>, VaultError>
        ensures numbers { IfOk result (λ ns. AreNumbers (disk_of self.old).files ns.items) }
        ensures same { disk_of self.new ≡ disk_of self.old }
        ensures rooms { RoomsStay (rooms_in self.old.slots) (rooms_in self.new.slots) }
        ensures cause { HasCauseOf VaultError.Failed self.old.kept.calls.faults self.new.kept.calls.faults result }
        ensures noted { self.old.kept.starved ≤ self.new.kept.starved }
        ensures counted { IsCounted (is_failed result) self.old.kept self.new.kept }
    {
        self.note(Call::Numbers)?;
        Ok(self.slots.numbers(alloc)?)
    }

    fn make_room(&mut self, alloc: Global, file: u64, upto: u64) -> Result<(), VaultError>
        ensures made { OnOk result (upto ≤ rooms_in self.new.slots file) }
        ensures same { disk_of self.new ≡ disk_of self.old }
        ensures rooms { RoomsStay (rooms_in self.old.slots) (rooms_in self.new.slots) }
        ensures cause { HasCauseOf VaultError.Failed self.old.kept.calls.faults self.new.kept.calls.faults result }
        ensures noted { self.old.kept.starved ≤ self.new.kept.starved }
        ensures counted { IsCounted (is_failed result) self.old.kept self.new.kept }
    {
        self.note(Call::MakeRoom { file, upto })?;
        Ok(self.grow(alloc, file, upto)?)
    }

    fn len(&mut self, file: u64) -> Result<Option<u64>, Failed>
        ensures len { IfOk result (λ len. len ≡ option_map length ((disk_of self.old).files file)) }
        ensures same { disk_of self.new ≡ disk_of self.old }
        ensures rooms { RoomsStay (rooms_in self.old.slots) (rooms_in self.new.slots) }
        ensures cause { HasCause self.old.kept.calls.faults self.new.kept.calls.faults result }
        ensures noted { self.old.kept.starved ≤ self.new.kept.starved }
        ensures counted { IsCounted (is_err result) self.old.kept self.new.kept }
    {
        self.note(Call::Length { file })?;
        Ok(self.slots.len(file))
    }

    fn read_at(&mut self, file: u64, at: u64, out: &mut [u8]) -> Result<usize, Failed>
        ensures bound { ReadsAtMost result out.new }
        ensures bytes { IfOk result (Fills (bytes_in (disk_of self.old).files file) at out.new) }
        ensures same { disk_of self.new ≡ disk_of self.old }
        ensures rooms { RoomsStay (rooms_in self.old.slots) (rooms_in self.new.slots) }
        ensures cause { HasCause self.old.kept.calls.faults self.new.kept.calls.faults result }
        ensures noted { self.old.kept.starved ≤ self.new.kept.starved }
        ensures counted { IsCounted (is_err result) self.old.kept self.new.kept }
    {
        let len = out.len();
        self.note(Call::Read { file, at, len })?;
        Ok(fill_from(self.slots.bytes(file), at, out))
    }

    fn write_at(&mut self, file: u64, at: u64, bytes: &[u8]) -> Result<(), Failed>
        requires room { at + length bytes.now ≤ rooms_in self.old.slots file }
        requires some { 0 < rooms_in self.old.slots file }
        requires at { TellsFiles (disk_of self.old) → at ≤ length (bytes_in (disk_of self.old).files file) }
        ensures change { Changes file (Write at bytes.now) (is_ok result) self.old.kept.starved self.new.kept.starved
            (disk_of self.old) (disk_of self.new) }
        ensures rooms { RoomsStay (rooms_in self.old.slots) (rooms_in self.new.slots) }
        ensures cause { HasCause self.old.kept.calls.faults self.new.kept.calls.faults result }
        ensures counted { IsCounted (is_err result) self.old.kept self.new.kept }
    {
        self.kept.note_write(file, at, bytes)?;
        self.slots.write_at(file, at, bytes);
        Ok(())
    }

    fn cut(&mut self, file: u64, len: u64) -> Result<(), Failed>
        requires len { TellsFiles (disk_of self.old) → IfSome ((disk_of self.old).files file) (λ bytes. len ≤ length bytes) }
        ensures change { Changes file (Cut len) (is_ok result) self.old.kept.starved self.new.kept.starved
            (disk_of self.old) (disk_of self.new) }
        ensures rooms { RoomsStay (rooms_in self.old.slots) (rooms_in self.new.slots) }
        ensures cause { HasCause self.old.kept.calls.faults self.new.kept.calls.faults result }
        ensures counted { IsCounted (is_err result) self.old.kept self.new.kept }
    {
        self.kept.note(Call::Edited {
            file,
            edit: Edit::Cut { len },
        })?;
        self.slots.cut(file, len);
        Ok(())
    }

    fn sync(&mut self, file: u64) -> Result<(), Failed>
        ensures change { Changes file Sync (is_ok result) self.old.kept.starved self.new.kept.starved (disk_of self.old)
            (disk_of self.new) }
        ensures rooms { RoomsStay (rooms_in self.old.slots) (rooms_in self.new.slots) }
        ensures cause { HasCause self.old.kept.calls.faults self.new.kept.calls.faults result }
        ensures counted { IsCounted (is_err result) self.old.kept self.new.kept }
    {
        self.kept.note(Call::Edited {
            file,
            edit: Edit::Sync,
        })?;
        Ok(())
    }

    fn remove(&mut self, file: u64) -> Result<(), Failed>
        ensures change { Changes file Remove (is_ok result) self.old.kept.starved self.new.kept.starved
            (disk_of self.old) (disk_of self.new) }
        ensures rooms { RoomsStay (rooms_in self.old.slots) (rooms_in self.new.slots) }
        ensures cause { HasCause self.old.kept.calls.faults self.new.kept.calls.faults result }
        ensures counted { IsCounted (is_err result) self.old.kept self.new.kept }
    {
        self.kept.note(Call::Edited {
            file,
            edit: Edit::Remove,
        })?;
        self.slots.remove(file);
        Ok(())
    }

    fn open_sealed(&mut self, alloc: Global, file: u64) -> Result<MemFile, VaultError>
        requires there { TellsFiles (disk_of self.old) → IsSome ((disk_of self.old).files file) }
        ensures held { IfOk result (λ sealed. Some sealed ≡ (disk_of self.old).files file) }
        ensures same { disk_of self.new ≡ disk_of self.old }
        ensures rooms { RoomsStay (rooms_in self.old.slots) (rooms_in self.new.slots) }
        ensures cause { HasCauseOf VaultError.Failed self.old.kept.calls.faults self.new.kept.calls.faults result }
        ensures noted { self.old.kept.starved ≤ self.new.kept.starved }
        ensures counted { IsCounted (is_failed result) self.old.kept self.new.kept }
    {
        self.note(Call::Open { file })?;
        Ok(MemFile::new(self.slots.bytes(file).to_vec(alloc)?))
    }

    fn reader(&mut self, alloc: Global) -> Result<MemReader, NoMemory>
        ensures fresh { IfOk result (λ reader. reader ≡ no_calls self.old.fail_reads) }
        ensures same { self.new ≡ self.old }
    {
        Ok(MemReader::new(self.fail_reads.to_vec(alloc)?))
    }

    fn give_back(&mut self, reader: MemReader)
        ensures same { disk_of self.new ≡ disk_of self.old }
        ensures rooms { rooms_in self.new.slots ≡ rooms_in self.old.slots }
        ensures count { TakesBack reader.faults self.old.kept.calls.faults self.new.kept.calls.faults }
        ensures noted { self.new.kept.starved ≡ self.old.kept.starved }
    {
        if reader.faults() > 0 {
            self.kept.add_fault();
        }
    }

    fn faults(&self) -> u64 {
        self.kept.faults()
    }
}
