// The versions that the records of a manifest's files describe.
ghost use Rattle.std.specs.Prelude.{◌≡◌, ◌≤◌, ℕ, Some, None, Err, IfOk, IfErr, IfSome, IfNone, IsOkAnd, option_map};
ghost use Rattle.rk_outside.specs.Disks.{TellsFiles};
ghost use Rattle.rk_outside.specs.Vaults.{RoomsStay};
ghost use Rattle.rk_gate.specs.Calls.{IsReadRefusal, HasReadCause};
ghost use Rattle.rk_gate.specs.Changes.{IsJournalWithGate};
ghost use Rattle.rk_manifest.specs.Versions.{version};
ghost use Rattle.rk_manifest.specs.Manifests.{version_above, versions_above, versions_in, newest as the_newest};

use crate::VersionDesc;
use rk_gate::{Journal, Record};
use rk_outside::{StoreError, Vault};
use std::alloc::Global;

/// The journal of a file of the manifest, and the newest version of its records.
///
/// # Errors
///
/// `BadRecord` of the journal, or at the first record that is no version or not newer than the one before; `ReadFault`;
/// and `Memory`.
pub(crate) fn recover_file<V: Vault>(
    alloc: Global,
    vault: &mut V,
    file: u64,
) -> Result<(Journal, Option<VersionDesc>), StoreError>
    ensures newest { TellsFiles (V.disk vault.old) → IfOk result (λ r.
        IsOkAnd (versions_in ((V.disk vault.old).files file)) (λ vs. option_map version r.1 ≡ the_newest vs)) }
    ensures stands { TellsFiles (V.disk vault.old) →
        IfOk result (λ r. IsJournalWithGate r.0.gate ((V.disk vault.old).files file)) }
    ensures file { IfOk result (λ r. r.0.file ≡ file) }
    ensures cause { HasReadCause file (λ at. TellsFiles (V.disk vault.old) → versions_in ((V.disk vault.old).files file) ≡ Err at)
        (V.fault_count vault.old) (V.fault_count vault.new) result }
    ensures same { V.disk vault.new ≡ V.disk vault.old }
    ensures room { IfOk result (λ r. r.0.room ≤ V.room vault.new file) }
    ensures rooms { RoomsStay (V.room vault.old) (V.room vault.new) }
{
    let (journal, records) = Journal::recover(alloc, vault, file)?;
    let newest = newest_version(alloc, file, &records)?;
    Ok((journal, newest))
}

/// The newest version that records of a file describe, which is that of the last one.
fn newest_version(
    alloc: Global,
    file: u64,
    records: &[Record],
) -> Result<Option<VersionDesc>, StoreError>
    ensures newest { IfOk result (λ newest.
        IsOkAnd (versions_above 0 records.now) (λ vs. option_map version newest ≡ the_newest vs)) }
    ensures refusal { (count : ℕ) → IfErr result (IsReadRefusal file (λ at. versions_above 0 records.now ≡ Err at) count count) }
{
    let mut newest = None;
    let mut floor = 0;
    for record in records {
        let next = read_version(alloc, file, record, floor)?;
        floor = next.next_file;
        newest = Some(next);
    }
    Ok(newest)
}

/// The version that a record describes, which is above a floor.
fn read_version(
    alloc: Global,
    file: u64,
    record: &Record,
    floor: u64,
) -> Result<VersionDesc, StoreError>
    ensures ok { IfOk result (λ desc. version_above floor record.now.payload ≡ Some (version desc)) }
    ensures refusal { (count : ℕ) → IfErr result
        (IsReadRefusal file (λ at. (at ≡ record.now.at) × (version_above floor record.now.payload ≡ None)) count count) }
{
    match VersionDesc::decode(alloc, record.payload.bytes())? {
        Some(desc) if desc.next_file > floor => Ok(desc),
        _ => Err(StoreError::BadRecord {
            file,
            at: record.at,
        }),
    }
}
