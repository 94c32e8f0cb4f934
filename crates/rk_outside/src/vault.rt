// Files under numbers, and what a crash may leave of them.
ghost use Rattle.std.specs.Prelude.{◌≡◌, ◌+◌, ◌≤◌, ◌<◌, ℕ, IfSome, IsSome, IfOk, OnOk, is_ok, length, option_map};
ghost use Rattle.std.specs.Io.{ReadsAtMost};
ghost use Rattle.rk_outside.specs.Causes.{HasCause, HasCauseOf};
ghost use Rattle.rk_outside.specs.Disks.{Disk, TellsFiles, TellsMoments, IsHonest, bytes_in, Write, Cut, Sync, Remove, Changes};
ghost use Rattle.rk_outside.specs.Vaults.{Fills, AreNumbers, RoomsStay, TakesBack};

use crate::{Failed, NoMemory, Sealed, VaultError};
use std::alloc::Global;

/// Files under numbers, which are changed, synced and read. Places and lengths are counted in bytes.
///
/// Only [`write_at`](Vault::write_at), [`cut`](Vault::cut), [`sync`](Vault::sync) and
/// [`remove`](Vault::remove) change the disk, and each of them one file. A crash at a moment leaves of each file
/// what it has met since its last sync allows: `specs/Disks` says it. A call that answers `Failed` counts as
/// made, but a sync that failed settles nothing.
///
/// A call that finds no memory inside and can't say so counts that as a fault and answers `Failed`.
pub trait Vault: Send {
    /// A file that no longer changes.
    type File: Sealed;

    /// What reads give, and what a crash may leave at each moment so far, each where it is told.
    ghost disk: { Self → Disk };

    /// Up to which length each file may be written.
    ghost room: { Self → ℕ → ℕ };

    /// How often a call has failed.
    ghost fault_count: { Self → ℕ };

    /// How often a call has failed for want of memory to note it. Only such a change has no moment.
    ghost unnoted: { Self → ℕ };

    /// The numbers of the files, rising.
    ///
    /// # Errors
    ///
    /// [`VaultError::Memory`] where there is none for the list, and [`VaultError::Failed`] where the vault
    /// failed.
    fn numbers(&mut self, alloc: Global) -> Result<Vec<u64>, VaultError>
        ensures numbers { TellsFiles (disk self.old) →
            IfOk result (λ ns. AreNumbers (disk self.old).files ns.items) }
        ensures same { disk self.new ≡ disk self.old }
        ensures rooms { RoomsStay (room self.old) (room self.new) }
        ensures cause { HasCauseOf VaultError.Failed (fault_count self.old) (fault_count self.new) result }
        ensures noted { unnoted self.old ≤ unnoted self.new };

    /// Makes room for `upto` bytes of the file in all. It makes no file.
    ///
    /// # Errors
    ///
    /// [`VaultError::Memory`] where there is none, and [`VaultError::Failed`] where the vault failed.
    fn make_room(&mut self, alloc: Global, file: u64, upto: u64) -> Result<(), VaultError>
        ensures made { OnOk result (upto ≤ room self.new file) }
        ensures same { disk self.new ≡ disk self.old }
        ensures rooms { RoomsStay (room self.old) (room self.new) }
        ensures cause { HasCauseOf VaultError.Failed (fault_count self.old) (fault_count self.new) result }
        ensures noted { unnoted self.old ≤ unnoted self.new };

    /// How many bytes the file has, and none where it is not there.
    ///
    /// # Errors
    ///
    /// [`Failed`] where the vault failed.
    fn len(&mut self, file: u64) -> Result<Option<u64>, Failed>
        ensures len { TellsFiles (disk self.old) →
            IfOk result (λ len. len ≡ option_map length ((disk self.old).files file)) }
        ensures same { disk self.new ≡ disk self.old }
        ensures rooms { RoomsStay (room self.old) (room self.new) }
        ensures cause { HasCause (fault_count self.old) (fault_count self.new) result }
        ensures noted { unnoted self.old ≤ unnoted self.new };

    /// Fills the front of `out` with the bytes from the place `at` on, as many as there are, and answers how
    /// many. Of a file that is not there it answers 0.
    ///
    /// # Errors
    ///
    /// [`Failed`] where the vault failed.
    fn read_at(&mut self, file: u64, at: u64, out: &mut [u8]) -> Result<usize, Failed>
        ensures bound { ReadsAtMost result out.new }
        ensures bytes { TellsFiles (disk self.old) →
            IfOk result (Fills (bytes_in (disk self.old).files file) at out.new) }
        ensures same { disk self.new ≡ disk self.old }
        ensures rooms { RoomsStay (room self.old) (room self.new) }
        ensures cause { HasCause (fault_count self.old) (fault_count self.new) result }
        ensures noted { unnoted self.old ≤ unnoted self.new };

    /// Writes these bytes from the place `at` on, over what is there and past the end. It makes a file that is
    /// not there. Some room was made for the file, so that a vault without memory left has a place for it.
    ///
    /// # Errors
    ///
    /// [`Failed`] where the vault failed. The range of the write may then hold any bytes.
    fn write_at(&mut self, file: u64, at: u64, bytes: &[u8]) -> Result<(), Failed>
        requires room { at + length bytes.now ≤ room self.old file }
        requires some { 0 < room self.old file }
        requires at { TellsFiles (disk self.old) → at ≤ length (bytes_in (disk self.old).files file) }
        ensures change { Changes file (Write at bytes.now) (is_ok result) (unnoted self.old) (unnoted self.new)
            (disk self.old) (disk self.new) }
        ensures rooms { RoomsStay (room self.old) (room self.new) }
        ensures cause { HasCause (fault_count self.old) (fault_count self.new) result };

    /// Cuts the file to a length that it reaches. A file that is not there stays so.
    ///
    /// # Errors
    ///
    /// [`Failed`] where the vault failed. The file may then have any length from `len` to the old one.
    fn cut(&mut self, file: u64, len: u64) -> Result<(), Failed>
        requires len { TellsFiles (disk self.old) →
            IfSome ((disk self.old).files file) (λ bytes. len ≤ length bytes) }
        ensures change { Changes file (Cut len) (is_ok result) (unnoted self.old) (unnoted self.new)
            (disk self.old) (disk self.new) }
        ensures rooms { RoomsStay (room self.old) (room self.new) }
        ensures cause { HasCause (fault_count self.old) (fault_count self.new) result };

    /// After it a crash leaves of the file what a read gives, that it is not there too.
    ///
    /// # Errors
    ///
    /// [`Failed`] where the vault failed. Nothing is then settled.
    fn sync(&mut self, file: u64) -> Result<(), Failed>
        ensures change { Changes file Sync (is_ok result) (unnoted self.old) (unnoted self.new) (disk self.old)
            (disk self.new) }
        ensures rooms { RoomsStay (room self.old) (room self.new) }
        ensures cause { HasCause (fault_count self.old) (fault_count self.new) result };

    /// Removes the file. Up to its next sync a crash may leave it there.
    ///
    /// # Errors
    ///
    /// [`Failed`] where the vault failed. The file may then be there or not.
    fn remove(&mut self, file: u64) -> Result<(), Failed>
        ensures change { Changes file Remove (is_ok result) (unnoted self.old) (unnoted self.new)
            (disk self.old) (disk self.new) }
        ensures rooms { RoomsStay (room self.old) (room self.new) }
        ensures cause { HasCause (fault_count self.old) (fault_count self.new) result };

    /// Opens a file that is there, as it is now.
    ///
    /// # Errors
    ///
    /// [`VaultError::Memory`] where there is none, and [`VaultError::Failed`] where the vault failed.
    fn open_sealed(&mut self, alloc: Global, file: u64) -> Result<Self::File, VaultError>
        requires there { TellsFiles (disk self.old) → IsSome ((disk self.old).files file) }
        ensures held { TellsFiles (disk self.old) →
            IfOk result (λ sealed. Self.File.held sealed ≡ (disk self.old).files file) }
        ensures same { disk self.new ≡ disk self.old }
        ensures rooms { RoomsStay (room self.old) (room self.new) }
        ensures cause { HasCauseOf VaultError.Failed (fault_count self.old) (fault_count self.new) result }
        ensures noted { unnoted self.old ≤ unnoted self.new };

    /// A reader of sealed files that has read nothing.
    ///
    /// # Errors
    ///
    /// [`NoMemory`] where there is none for it.
    fn reader(&mut self, alloc: Global) -> Result<<Self::File as Sealed>::Reader, NoMemory>
        ensures reads { IfOk result (λ reader. (Self.File.Reader.counts reader).reads ≡ 0) }
        ensures faults { IfOk result (λ reader. (Self.File.Reader.counts reader).faults ≡ 0) }
        ensures same { disk self.new ≡ disk self.old }
        ensures rooms { RoomsStay (room self.old) (room self.new) }
        ensures count { fault_count self.new ≡ fault_count self.old }
        ensures noted { unnoted self.new ≡ unnoted self.old };

    /// Takes a reader back that is done with. The count rises exactly where the reader has failed.
    fn give_back(&mut self, reader: <Self::File as Sealed>::Reader)
        ensures same { disk self.new ≡ disk self.old }
        ensures rooms { room self.new ≡ room self.old }
        ensures count { TakesBack (Self.File.Reader.counts reader).faults (fault_count self.old)
            (fault_count self.new) }
        ensures noted { unnoted self.new ≡ unnoted self.old };

    /// How often a call has failed. At its greatest value the count stays.
    fn faults(&self) -> u64
        ensures { result ≡ fault_count self.now };

    /// Where both are told, what reads give is what a crash now may leave.
    ghost honest: { (v : Self) → TellsFiles (disk v) → TellsMoments (disk v) → IsHonest (disk v) };
}
