// The two logs of a store, as they stand in a vault.
ghost use Rattle.std.specs.Prelude.{◌≡◌, ◌≤◌, ◌⊎◌, ℕ, Some, None, Ok, Err, IfOk, OnOk, IfErr};
ghost use Rattle.rk_outside.specs.Disks.{TellsFiles};
ghost use Rattle.rk_outside.specs.Vaults.{RoomsStay};
ghost use Rattle.rk_outside.specs.declared.error.StoreError.TheVariants.{BadRecord};
ghost use Rattle.rk_gate.specs.Calls.{IsReadRefusal, HasReadCause, HasReadCauseOfTwo};
ghost use Rattle.rk_gate.specs.Changes.{IsJournalWithGate};
ghost use Rattle.rk_log.specs.Groups.{group_of};
ghost use Rattle.rk_log.specs.Logs.{groups_in, log_of, logs_in, by_the_rules, is_second_active};

use crate::rules::{broken_in_first, broken_in_second, first_later};
use crate::{Group, Logged};
use rk_gate::{Journal, Record};
use rk_outside::{StoreError, Vault};
use std::alloc::Global;

/// The number of the first log's file.
const FIRST: u64 = 1;

/// The number of the second log's file.
const SECOND: u64 = 2;

/// A log: its journal, and the groups that it had.
#[derive(Debug, Drop)]
pub struct Log {
    pub journal: Journal,
    pub groups: Vec<Logged>,
}

/// The two logs of a store.
#[derive(Debug, Drop)]
pub struct Logs {
    /// That of file 1.
    pub first: Log,
    /// That of file 2.
    pub second: Log,
}

/// The logs in the files 1 and 2, where the numbers up to `flushed` are in tables. Files with changes pending are synced
/// first.
///
/// # Errors
///
/// `BadRecord` with the first record that is none, those of file 1 before those of file 2: of a file first one that the
/// journal refuses, and then one that is no group; and where all are groups, the first that breaks a rule. `ReadFault` where
/// the vault failed; and `Memory`.
pub fn recover<V: Vault>(alloc: Global, vault: &mut V, flushed: u64) -> Result<Logs, StoreError>
    ensures logs { TellsFiles (V.disk vault.old) → IfOk result (λ logs.
        logs_in flushed (V.disk vault.old).files ≡ Ok (record { first = logs.first.groups.items; second = logs.second.groups.items })) }
    ensures first { TellsFiles (V.disk vault.old) →
        IfOk result (λ logs. IsJournalWithGate logs.first.journal.gate ((V.disk vault.old).files 1)) }
    ensures second { TellsFiles (V.disk vault.old) →
        IfOk result (λ logs. IsJournalWithGate logs.second.journal.gate ((V.disk vault.old).files 2)) }
    ensures files { IfOk result (λ logs. (logs.first.journal.file ≡ 1) × (logs.second.journal.file ≡ 2)) }

    // A bad record is named exactly where the contents have it first.
    ensures cause { HasReadCauseOfTwo 1 2
        (λ file at. TellsFiles (V.disk vault.old) → logs_in flushed (V.disk vault.old).files ≡ Err (BadRecord file at))
        (V.fault_count vault.old) (V.fault_count vault.new) result }
    ensures same { V.disk vault.new ≡ V.disk vault.old }
    ensures room { IfOk result (λ logs. (logs.first.journal.room ≤ V.room vault.new 1) × (logs.second.journal.room ≤ V.room vault.new 2)) }
    ensures rooms { RoomsStay (V.room vault.old) (V.room vault.new) }
{
    let first = recover_log(alloc, vault, FIRST)?;
    let second = recover_log(alloc, vault, SECOND)?;
    check_rules(flushed, &first.groups, &second.groups)?;
    Ok(Logs { first, second })
}

/// The journal of a log's file, and the groups of its records.
///
/// # Errors
///
/// `BadRecord` of the journal, or at the first record that is no group; `ReadFault`; and `Memory`.
fn recover_log<V: Vault>(alloc: Global, vault: &mut V, file: u64) -> Result<Log, StoreError>
    ensures groups { TellsFiles (V.disk vault.old) →
        IfOk result (λ log. log_of ((V.disk vault.old).files file) ≡ Ok log.groups.items) }
    ensures stands { TellsFiles (V.disk vault.old) →
        IfOk result (λ log. IsJournalWithGate log.journal.gate ((V.disk vault.old).files file)) }
    ensures file { IfOk result (λ log. log.journal.file ≡ file) }
    ensures cause { HasReadCause file (λ at. TellsFiles (V.disk vault.old) → log_of ((V.disk vault.old).files file) ≡ Err at)
        (V.fault_count vault.old) (V.fault_count vault.new) result }
    ensures same { V.disk vault.new ≡ V.disk vault.old }
    ensures room { IfOk result (λ log. log.journal.room ≤ V.room vault.new file) }
    ensures rooms { RoomsStay (V.room vault.old) (V.room vault.new) }
{
    let (journal, records) = Journal::recover(alloc, vault, file)?;
    let groups = groups_in(alloc, file, &records)?;
    Ok(Log { journal, groups })
}

/// The groups of a file's records.
fn groups_in(alloc: Global, file: u64, records: &[Record]) -> Result<Vec<Logged>, StoreError>
    ensures groups { IfOk result (λ groups. groups_in records.now ≡ Ok groups.items) }
    ensures refusal { (count : ℕ) → IfErr result (IsReadRefusal file (λ at. groups_in records.now ≡ Err at) count count) }
{
    let mut groups = Vec::new(alloc);
    for record in records {
        let group = read_group(alloc, file, record)?;
        groups.push(Logged {
            at: record.at,
            group,
        })?;
    }
    Ok(groups)
}

/// The group of a record.
fn read_group(alloc: Global, file: u64, stored: &Record) -> Result<Group, StoreError>
    ensures ok { IfOk result (λ group. group_of stored.now.payload ≡ Some group) }
    ensures refusal { (count : ℕ) → IfErr result
        (IsReadRefusal file (λ at. (at ≡ stored.now.at) × (group_of stored.now.payload ≡ None)) count count) }
{
    match Group::decode(alloc, stored.payload.bytes())? {
        Some(group) => Ok(group),
        None => Err(StoreError::BadRecord {
            file,
            at: stored.at,
        }),
    }
}

/// Refuses the first group that breaks a rule.
fn check_rules(flushed: u64, first: &[Logged], second: &[Logged]) -> Result<(), StoreError>
    ensures ok { OnOk result (by_the_rules flushed (record { first = first.now; second = second.now })
        ≡ Ok (record { first = first.now; second = second.now })) }
    ensures refusal { (count : ℕ) →
        let IsBad : ℕ → ℕ → Type 0 = λ file at. by_the_rules flushed (record { first = first.now; second = second.now }) ≡ Err (BadRecord file at) in
        IfErr result (λ e. IsReadRefusal 1 (IsBad 1) count count e ⊎ IsReadRefusal 2 (IsBad 2) count count e) }
{
    if let Some(at) = broken_in_first(flushed, first, second) {
        return Err(StoreError::BadRecord { file: FIRST, at });
    }
    if let Some(at) = broken_in_second(flushed, first, second) {
        return Err(StoreError::BadRecord { file: SECOND, at });
    }
    Ok(())
}

impl Logs {
    /// Whether the second log is the one that is written to, where the numbers up to `flushed` are in tables.
    pub fn is_second_active(&self, flushed: u64) -> bool
        ensures { result ≡ is_second_active flushed (record { first = self.now.first.groups.items; second = self.now.second.groups.items }) }
    {
        let in_first = first_later(flushed, &self.first.groups);
        let in_second = first_later(flushed, &self.second.groups);
        match (in_first, in_second) {
            (_, None) => false,
            (None, Some(_)) => true,
            (Some(in_first), Some(in_second)) => in_first < in_second,
        }
    }
}
