// The opening of a store.
ghost use Rattle.std.specs.Prelude.{◌≡◌, ◌≤◌, ◌<◌, IfOk, OnOk, ℕ, true};
ghost use Rattle.rk_outside.specs.Disks.{TellsFiles, TellsAlike, IsHonest, LeavesOnly};
ghost use Rattle.rk_outside.specs.Vaults.{RoomsStay};
ghost use Rattle.rk_gate.specs.Changes.{IsJournalWithGate};
ghost use Rattle.rk_manifest.specs.Versions.{version};
ghost use Rattle.rk_manifest.specs.Manifests.{StandsFor};
ghost use Rattle.rk_manifest.specs.Calls.{HasRoom};
ghost use Rattle.rk_opening.specs.Stores.{has_magic};
ghost use Rattle.rk_opening.specs.Openings.{IsOpened, Holds, UnusedStay, OthersStayAbove, StaysOrIsNew, IsAlike, MayBeNew, MayBeLeft, Reads, HasOpenCause};
ghost use Rattle.rk_opening.specs.Settling.{Leaves};
ghost use Rattle.rk_opening.specs.Syncing.{IsSettledAt};

use crate::head::has_head;
use crate::making::make_store;
use crate::settling::settle_log;
use crate::syncing::sync_front;
use crate::tables::{least_table, remove_tables};
use rk_log::Logs;
use rk_manifest::{Manifest, VersionDesc};
use rk_outside::{StoreError, Vault};
use std::alloc::Global;

/// An opened store: its manifest and its newest version, and its logs with their groups. A log whose groups are all in tables
/// was emptied.
#[derive(Debug, Drop)]
pub struct Opened {
    pub manifest: Manifest,
    pub version: VersionDesc,
    pub logs: Logs,
}

/// Opens the store in a vault, or makes one where there is none.
///
/// The files 0 to 4 are synced first. Where the head does not begin a store, the files 1 to 4 are made empty journals, and then
/// the head is written and synced. Where it does, the manifest is recovered, files of tables that the newest version does not
/// name are removed, the logs are recovered, and a log whose groups are all in tables is emptied.
///
/// # Errors
///
/// `NotAStore` with the least file of a table where no store was made. `BadRecord` with the first bad record of the manifest,
/// and then of the logs. `ReadFault` and `WriteFault` where the vault failed, and `Memory`.
pub fn open_store<V: Vault>(alloc: Global, vault: &mut V) -> Result<Opened, StoreError>
    ensures opened { TellsFiles (V.disk vault.old) → IfOk result (λ o. IsOpened (V.disk vault.old).files
        (record { version = version o.version; logs = record { first = o.logs.first.groups.items; second = o.logs.second.groups.items } })) }
    ensures holds { TellsFiles (V.disk vault.old) → IfOk result (λ o. Holds (V.disk vault.new).files
        (record { version = version o.version; logs = record { first = o.logs.first.groups.items; second = o.logs.second.groups.items } })) }
    ensures manifest { TellsFiles (V.disk vault.old) → IfOk result (λ o. StandsFor o.manifest (V.disk vault.new).files) }
    ensures first { TellsFiles (V.disk vault.old) →
        IfOk result (λ o. IsJournalWithGate o.logs.first.journal.gate ((V.disk vault.new).files 1)) }
    ensures second { TellsFiles (V.disk vault.old) →
        IfOk result (λ o. IsJournalWithGate o.logs.second.journal.gate ((V.disk vault.new).files 2)) }
    ensures files { IfOk result (λ o. (o.logs.first.journal.file ≡ 1) × (o.logs.second.journal.file ≡ 2)) }
    ensures unused { TellsFiles (V.disk vault.old) → UnusedStay (V.disk vault.old).files (V.disk vault.new).files }

    ensures reads { TellsFiles (V.disk vault.old) → Reads (V.disk vault.old).files (V.disk vault.new).files }

    // Each image of each moment since the start is one from before it, or stands for what reads gave then. After `Ok` a crash
    // leaves the head, the logs and the manifest as reads give them.
    ensures told { TellsAlike (V.disk vault.old) (V.disk vault.new) }
    ensures honest { IsHonest (V.disk vault.old) → IsHonest (V.disk vault.new) }
    ensures crash { IsHonest (V.disk vault.old) →
        LeavesOnly (V.disk vault.old) (V.disk vault.new) (MayBeLeft (V.disk vault.old)) }
    ensures settled { OnOk result ((f : ℕ) → f < 5 → IsSettledAt f (V.disk vault.new)) }

    ensures room { IfOk result (λ o. HasRoom o.manifest (V.room vault.new)) }
    ensures log_room { IfOk result (λ o. (o.logs.first.journal.room ≤ V.room vault.new 1) × (o.logs.second.journal.room ≤ V.room vault.new 2)) }
    ensures rooms { RoomsStay (V.room vault.old) (V.room vault.new) }
    ensures cause { HasOpenCause (λ Says. TellsFiles (V.disk vault.old) → Says) (V.disk vault.old).files
        (V.fault_count vault.old) (V.fault_count vault.new) result }
{
    sync_front(vault)?;
    make_if_none(alloc, vault)?;
    recover_store(alloc, vault)
}

/// Makes a store where there is none.
fn make_if_none<V: Vault>(alloc: Global, vault: &mut V) -> Result<(), StoreError>
    requires settled { (f : ℕ) → f < 5 → IsSettledAt f (V.disk vault.old) }
    ensures head { OnOk result (TellsFiles (V.disk vault.old) → has_magic ((V.disk vault.new).files 0) ≡ true) }
    ensures store { OnOk result (TellsFiles (V.disk vault.old) → StaysOrIsNew (V.disk vault.old).files (V.disk vault.new).files) }
    ensures others { TellsFiles (V.disk vault.old) → OthersStayAbove (V.disk vault.old).files (V.disk vault.new).files }
    ensures reads { TellsFiles (V.disk vault.old) → Reads (V.disk vault.old).files (V.disk vault.new).files }
    ensures told { TellsAlike (V.disk vault.old) (V.disk vault.new) }
    ensures honest { IsHonest (V.disk vault.old) → IsHonest (V.disk vault.new) }
    ensures crash { IsHonest (V.disk vault.old) →
        LeavesOnly (V.disk vault.old) (V.disk vault.new) (MayBeNew (V.disk vault.old)) }
    ensures settled { OnOk result ((f : ℕ) → f < 5 → IsSettledAt f (V.disk vault.new)) }
    ensures rooms { RoomsStay (V.room vault.old) (V.room vault.new) }
    ensures cause { HasOpenCause (λ Says. TellsFiles (V.disk vault.old) → Says) (V.disk vault.old).files
        (V.fault_count vault.old) (V.fault_count vault.new) result }
{
    if has_head(vault)? {
        return Ok(());
    }
    if let Some(file) = least_table(alloc, vault)? {
        return Err(StoreError::NotAStore { file });
    }
    make_store(alloc, vault)
}

/// Recovers the store behind a head.
fn recover_store<V: Vault>(alloc: Global, vault: &mut V) -> Result<Opened, StoreError>
    requires head { TellsFiles (V.disk vault.old) → has_magic ((V.disk vault.old).files 0) ≡ true }
    requires settled { (f : ℕ) → f < 5 → IsSettledAt f (V.disk vault.old) }
    ensures opened { TellsFiles (V.disk vault.old) → IfOk result (λ o. IsOpened (V.disk vault.old).files
        (record { version = version o.version; logs = record { first = o.logs.first.groups.items; second = o.logs.second.groups.items } })) }
    ensures holds { TellsFiles (V.disk vault.old) → IfOk result (λ o. Holds (V.disk vault.new).files
        (record { version = version o.version; logs = record { first = o.logs.first.groups.items; second = o.logs.second.groups.items } })) }
    ensures manifest { TellsFiles (V.disk vault.old) → IfOk result (λ o. StandsFor o.manifest (V.disk vault.new).files) }
    ensures first { TellsFiles (V.disk vault.old) →
        IfOk result (λ o. IsJournalWithGate o.logs.first.journal.gate ((V.disk vault.new).files 1)) }
    ensures second { TellsFiles (V.disk vault.old) →
        IfOk result (λ o. IsJournalWithGate o.logs.second.journal.gate ((V.disk vault.new).files 2)) }
    ensures files { IfOk result (λ o. (o.logs.first.journal.file ≡ 1) × (o.logs.second.journal.file ≡ 2)) }
    ensures unused { TellsFiles (V.disk vault.old) → UnusedStay (V.disk vault.old).files (V.disk vault.new).files }
    ensures disk { Leaves (V.disk vault.old) (V.disk vault.new) (IsAlike (V.disk vault.old).files) }
    ensures settled { OnOk result ((f : ℕ) → f < 5 → IsSettledAt f (V.disk vault.new)) }
    ensures room { IfOk result (λ o. HasRoom o.manifest (V.room vault.new)) }
    ensures log_room { IfOk result (λ o. (o.logs.first.journal.room ≤ V.room vault.new 1) × (o.logs.second.journal.room ≤ V.room vault.new 2)) }
    ensures rooms { RoomsStay (V.room vault.old) (V.room vault.new) }
    ensures cause { HasOpenCause (λ Says. TellsFiles (V.disk vault.old) → Says) (V.disk vault.old).files
        (V.fault_count vault.old) (V.fault_count vault.new) result }
{
    let (manifest, version) = Manifest::recover(alloc, vault)?;
    remove_tables(alloc, vault)?;
    let mut logs = rk_log::recover(alloc, vault, version.flushed_upto)?;
    settle_log(vault, &mut logs.first, version.flushed_upto)?;
    settle_log(vault, &mut logs.second, version.flushed_upto)?;
    Ok(Opened {
        manifest,
        version,
        logs,
    })
}
