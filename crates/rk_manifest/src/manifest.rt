ghost use Rattle.std.specs.Prelude.{◌≡◌, ◌≢◌, ◌≤◌, ℕ, [], ◌∷◌, Some, None, Ok, Err, IfOk, OnOk, OnErr, IsErrOf, IsTrue, option_map, unwrap_or, not, if◌then◌else◌};
ghost use Rattle.rk_outside.specs.Disks.{TellsFiles, IsHonest, EachImage, FilesStayBut, LeavesOnly};
ghost use Rattle.rk_outside.specs.Vaults.{RoomsStay};
ghost use Rattle.rk_outside.specs.declared.error.StoreError.TheVariants.{BadRecord};
ghost use Rattle.rk_gate.specs.Calls.{ChangesFile, HasReadCause, HasReadCauseOfTwo, HasWriteCause};
ghost use Rattle.rk_gate.specs.Changes.{HasRecordsOf, IsJournalWithGate, after_append};
ghost use Rattle.rk_gate.specs.Records.{recovered_file};
ghost use Rattle.rk_manifest.specs.Versions.{version, version_bytes, has_no_tables, no_version};
ghost use Rattle.rk_manifest.specs.Manifests.{manifest_in, is_newer, StandsFor, MayFollow, HasOldOrNew, is_full, file_of, goes_to_fourth};
ghost use Rattle.rk_manifest.specs.Calls.{ChangesManifest, HasManifestOf, HasRoom, IsAsBefore, HasInstallCause, start_of, MayHold};

use crate::VersionDesc;
use crate::decode::no_tables;
use crate::recover::recover_file;
use crate::writing::write_into;
use rk_gate::Journal;
use rk_outside::{Failed, NoMemory, StoreError, Vault};
use std::alloc::Global;
use std::marker::Model;

/// The number of the first file.
const THIRD: u64 = 3;

/// The number of the other file.
const FOURTH: u64 = 4;

/// A file of this length or more is left for the other one.
const FULL_LEN: u64 = 4_194_304;

/// The manifest of a vault: versions in the journals of the files 3 and 4, of which the newest counts. Contracts see the
/// two journals and which of them has the newest record.
///
/// After a call that was refused with `WriteFault` it is recovered again, behind a sync of its files.
#[derive(Debug, Drop)]
pub struct Manifest {
    alloc: Global,
    third: Journal,
    fourth: Journal,
    in_fourth: bool,
}

impl Model for Manifest {
    ghost use Rattle.std.specs.Prelude.{◌≡◌};
    ghost use Rattle.rk_manifest.specs.Manifests.{ManifestState};

    ghost Value = { ManifestState };

    ghost view = { λ m. record { third = m.third; fourth = m.fourth; in_fourth = m.in_fourth } };

    ghost invariant = { λ m. (m.third.file ≡ 3) × (m.fourth.file ≡ 4) };
}

impl Manifest {
    /// Makes both files empty journals. They may be there or not.
    ///
    /// # Errors
    ///
    /// `WriteFault` where the vault failed, and `Memory`.
    pub fn create<V: Vault>(alloc: Global, vault: &mut V) -> Result<Manifest, StoreError>
        ensures third { OnOk result (TellsFiles (V.disk vault.old) → (V.disk vault.new).files 3 ≡ Some (0 ∷ [])) }
        ensures fourth { OnOk result (TellsFiles (V.disk vault.old) → (V.disk vault.new).files 4 ≡ Some (0 ∷ [])) }
        ensures version { OnOk result (TellsFiles (V.disk vault.old) → manifest_in (V.disk vault.new).files ≡ Ok no_version) }
        ensures stands { IfOk result (λ m. TellsFiles (V.disk vault.old) → StandsFor m (V.disk vault.new).files) }

        // Other files stay, as reads give them and in each image.
        ensures disk { ChangesManifest (V.disk vault.old) (V.disk vault.new) }
        ensures there { OnOk result (IsHonest (V.disk vault.new) →
            EachImage (V.disk vault.new) (HasManifestOf (V.disk vault.new).files)) }
        ensures room { IfOk result (λ m. HasRoom m (V.room vault.new)) }
        ensures rooms { RoomsStay (V.room vault.old) (V.room vault.new) }
        ensures cause { HasWriteCause (V.fault_count vault.old) (V.fault_count vault.new) result }
    {
        let third = Journal::create(alloc, vault, THIRD)?;
        let fourth = Journal::create(alloc, vault, FOURTH)?;
        Ok(Manifest {
            alloc,
            third,
            fourth,
            in_fourth: false,
        })
    }

    /// The manifest in the files, and the newest version of their records. Files with changes pending are synced first.
    ///
    /// # Errors
    ///
    /// `BadRecord` with the first record that is none, those of file 3 before those of file 4: of a file first one that
    /// the journal refuses, and then one that describes no version, or none that is newer than the one before; `ReadFault`
    /// where the vault failed; and `Memory`.
    pub fn recover<V: Vault>(
        alloc: Global,
        vault: &mut V,
    ) -> Result<(Manifest, VersionDesc), StoreError>
        ensures version { TellsFiles (V.disk vault.old) →
            IfOk result (λ r. manifest_in (V.disk vault.old).files ≡ Ok (version r.1)) }
        ensures stands { TellsFiles (V.disk vault.old) → IfOk result (λ r. StandsFor r.0 (V.disk vault.old).files) }

        // A bad record is named exactly where the contents have it first.
        ensures cause { HasReadCauseOfTwo 3 4
            (λ file at. TellsFiles (V.disk vault.old) → manifest_in (V.disk vault.old).files ≡ Err (BadRecord file at))
            (V.fault_count vault.old) (V.fault_count vault.new) result }
        ensures same { V.disk vault.new ≡ V.disk vault.old }
        ensures room { IfOk result (λ r. HasRoom r.0 (V.room vault.new)) }
        ensures rooms { RoomsStay (V.room vault.old) (V.room vault.new) }
    {
        let (third, first) = recover_file(alloc, vault, THIRD)?;
        let (fourth, second) = recover_file(alloc, vault, FOURTH)?;
        let in_fourth = is_newer(&first, &second);
        let newest = if in_fourth { second } else { first };
        let desc = or_nothing(alloc, newest)?;
        let manifest = Manifest {
            alloc,
            third,
            fourth,
            in_fourth,
        };
        Ok((manifest, desc))
    }

    /// Records a version. At `Ok` each crash from then on leaves it.
    ///
    /// Its record goes to the file of the newest one, and to file 3 where there is none. Where that file has 4,194,304
    /// bytes or more, the other one is emptied and takes it.
    ///
    /// # Errors
    ///
    /// `WriteFault` where the vault failed: the manifest is then recovered again, and has the old version or this one. And
    /// `ReadFault` where the vault failed to tell a length, and `Memory`; after both all is as before.
    pub fn install<V: Vault>(&mut self, vault: &mut V, desc: &VersionDesc) -> Result<(), StoreError>
        // The vault reads as this manifest left it, and so does each image.
        requires stands { TellsFiles (V.disk vault.old) → StandsFor self.old (V.disk vault.old).files }
        requires images { IsHonest (V.disk vault.old) →
            EachImage (V.disk vault.old) (HasManifestOf (V.disk vault.old).files) }
        requires room { HasRoom self.old (V.room vault.old) }
        requires no_tables { IsTrue (has_no_tables (version desc.now)) }

        // The version that may follow is then the newest one.
        ensures version { OnOk result (TellsFiles (V.disk vault.old) → MayFollow (V.disk vault.old).files (version desc.now) →
            manifest_in (V.disk vault.new).files ≡ Ok (version desc.now)) }
        ensures stands { OnOk result (TellsFiles (V.disk vault.old) → MayFollow (V.disk vault.old).files (version desc.now) →
            StandsFor self.new (V.disk vault.new).files) }

        // One file alone changes, and has the record behind those that it had, or by itself where it is emptied.
        ensures others { TellsFiles (V.disk vault.old) →
            FilesStayBut (file_of (goes_to_fourth self.old.in_fourth (V.disk vault.old).files))
            (V.disk vault.old).files (V.disk vault.new).files }
        ensures added { OnOk result (TellsFiles (V.disk vault.old) →
            let file = file_of (goes_to_fourth self.old.in_fourth (V.disk vault.old).files) in
            let emptied = is_full ((V.disk vault.old).files (file_of self.old.in_fourth)) in
            recovered_file ((V.disk vault.new).files file)
            ≡ after_append (version_bytes (version desc.now)) (start_of emptied (recovered_file ((V.disk vault.old).files file)))) }

        // What reads give after any answer, and each image of each moment, have the old version or this one.
        ensures reads { TellsFiles (V.disk vault.old) → MayFollow (V.disk vault.old).files (version desc.now) →
            HasOldOrNew (V.disk vault.old).files (version desc.now) (V.disk vault.new).files }
        ensures disk { ChangesManifest (V.disk vault.old) (V.disk vault.new) }
        ensures crash { IsHonest (V.disk vault.old) → MayFollow (V.disk vault.old).files (version desc.now) →
            LeavesOnly (V.disk vault.old) (V.disk vault.new) (HasOldOrNew (V.disk vault.old).files (version desc.now)) }
        ensures there { OnOk result (IsHonest (V.disk vault.new) →
            EachImage (V.disk vault.new) (HasManifestOf (V.disk vault.new).files)) }

        ensures memory { IsErrOf result StoreError.Memory →
            (V.disk vault.new ≡ V.disk vault.old) × IsAsBefore self.old self.new }
        ensures unread { (faults : ℕ) → IsErrOf result (StoreError.ReadFault faults) →
            (V.disk vault.new ≡ V.disk vault.old) × IsAsBefore self.old self.new }
        ensures room { HasRoom self.new (V.room vault.new) }
        ensures rooms { RoomsStay (V.room vault.old) (V.room vault.new) }
        ensures cause { HasInstallCause (V.fault_count vault.old) (V.fault_count vault.new) result }
    {
        let payload = desc.encode(self.alloc)?;
        let emptied = is_full(vault, self.newest_file())?;
        let in_fourth = self.next_place(emptied);
        self.write(vault, in_fourth, emptied, &payload)?;
        self.in_fourth = in_fourth;
        Ok(())
    }

    /// The file of the newest record.
    fn newest_file(&self) -> u64
        ensures { result ≡ file_of self.now.in_fourth }
    {
        if self.in_fourth { FOURTH } else { THIRD }
    }

    /// Whether the next record goes to file 4, where the file of the newest one is left or not.
    fn next_place(&self, left: bool) -> bool
        ensures { result ≡ (if left then not self.now.in_fourth else self.now.in_fourth) }
    {
        if left {
            !self.in_fourth
        } else {
            self.in_fourth
        }
    }

    /// Writes a record into one of the files, which is emptied first where that is asked.
    fn write<V: Vault>(
        &mut self,
        vault: &mut V,
        in_fourth: bool,
        emptied: bool,
        payload: &[u8],
    ) -> Result<(), StoreError>
        requires stands { TellsFiles (V.disk vault.old) → StandsFor self.old (V.disk vault.old).files }
        requires images { IsHonest (V.disk vault.old) →
            EachImage (V.disk vault.old) (HasManifestOf (V.disk vault.old).files) }
        requires room { HasRoom self.old (V.room vault.old) }
        ensures added { OnOk result (TellsFiles (V.disk vault.old) → recovered_file ((V.disk vault.new).files (file_of in_fourth))
            ≡ after_append payload.now (start_of emptied (recovered_file ((V.disk vault.old).files (file_of in_fourth))))) }
        ensures third { OnOk result (TellsFiles (V.disk vault.old) → IsJournalWithGate self.new.third.gate ((V.disk vault.new).files 3)) }
        ensures fourth { OnOk result (TellsFiles (V.disk vault.old) → IsJournalWithGate self.new.fourth.gate ((V.disk vault.new).files 4)) }
        ensures reads { TellsFiles (V.disk vault.old) → MayHold emptied payload.now
            ((V.disk vault.old).files (file_of in_fourth)) ((V.disk vault.new).files (file_of in_fourth)) }
        ensures disk { ChangesFile (file_of in_fourth) (V.disk vault.old) (V.disk vault.new)
            (MayHold emptied payload.now ((V.disk vault.old).files (file_of in_fourth))) }
        ensures there { OnOk result (IsHonest (V.disk vault.new) → EachImage (V.disk vault.new) (λ image.
            HasRecordsOf ((V.disk vault.new).files (file_of in_fourth)) (image (file_of in_fourth)))) }
        ensures memory { IsErrOf result StoreError.Memory →
            (V.disk vault.new ≡ V.disk vault.old) × IsAsBefore self.old self.new }
        ensures flag { self.new.in_fourth ≡ self.old.in_fourth }
        ensures room { HasRoom self.new (V.room vault.new) }
        ensures rooms { RoomsStay (V.room vault.old) (V.room vault.new) }
        ensures cause { HasWriteCause (V.fault_count vault.old) (V.fault_count vault.new) result }
    {
        if in_fourth {
            write_into(&mut self.fourth, vault, emptied, payload)
        } else {
            write_into(&mut self.third, vault, emptied, payload)
        }
    }
}

/// Whether the second version is there, and newer than the first one.
fn is_newer(first: &Option<VersionDesc>, second: &Option<VersionDesc>) -> bool
    ensures { result ≡ is_newer (option_map version first.now) (option_map version second.now) }
{
    match (first, second) {
        (_, None) => false,
        (None, Some(_)) => true,
        (Some(old), Some(new)) => old.next_file < new.next_file,
    }
}

/// The version, or the one where nothing was recorded.
fn or_nothing(alloc: Global, newest: Option<VersionDesc>) -> Result<VersionDesc, NoMemory>
    ensures { IfOk result (λ desc. version desc ≡ unwrap_or (option_map version newest) no_version) }
{
    match newest {
        Some(desc) => Ok(desc),
        None => Ok(VersionDesc {
            next_file: 16,
            flushed_upto: 0,
            levels: no_tables(alloc)?,
        }),
    }
}

/// Whether a file has so many bytes that it is left.
fn is_full<V: Vault>(vault: &mut V, file: u64) -> Result<bool, StoreError>
    ensures full { TellsFiles (V.disk vault.old) → IfOk result (λ full. full ≡ is_full ((V.disk vault.old).files file)) }
    ensures same { V.disk vault.new ≡ V.disk vault.old }
    ensures rooms { RoomsStay (V.room vault.old) (V.room vault.new) }
    ensures cause { HasReadCause 3 (λ at. ⊥) (V.fault_count vault.old) (V.fault_count vault.new) result }
    ensures no_memory { IsErrOf result StoreError.Memory → ⊥ }
{
    match vault.len(file) {
        Ok(len) => Ok(len.unwrap_or(0) >= FULL_LEN),
        Err(Failed) => Err(StoreError::ReadFault {
            faults: vault.faults(),
        }),
    }
}
