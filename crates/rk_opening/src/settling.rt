// Logs whose groups are all in tables.
ghost use Rattle.std.specs.Prelude.{◌≡◌, ◌≤◌, Ok, OnOk};
ghost use Rattle.rk_outside.specs.Disks.{TellsFiles};
ghost use Rattle.rk_outside.specs.Vaults.{RoomsStay};
ghost use Rattle.rk_gate.specs.Calls.{ChangesFile, HasWriteCause};
ghost use Rattle.rk_gate.specs.Changes.{IsJournalWithGate};
ghost use Rattle.rk_pieces.specs.Pieces.{is_empty};
ghost use Rattle.rk_log.specs.Logs.{later, log_of};
ghost use Rattle.rk_opening.specs.Stores.{kept};
ghost use Rattle.rk_opening.specs.Syncing.{IsSettledAt};
ghost use Rattle.rk_opening.specs.Settling.{MayBeSettled};

use rk_log::{Log, Logged};
use rk_outside::{StoreError, Vault};

/// Empties a log that has groups, where they are all in tables.
pub(crate) fn settle_log<V: Vault>(
    vault: &mut V,
    log: &mut Log,
    flushed: u64,
) -> Result<(), StoreError>
    requires reads { TellsFiles (V.disk vault.old) → IsJournalWithGate log.old.journal.gate ((V.disk vault.old).files log.old.journal.file) }
    requires settled { IsSettledAt log.old.journal.file (V.disk vault.old) }
    requires room { log.old.journal.room ≤ V.room vault.old log.old.journal.file }
    ensures groups { OnOk result (log.new.groups.items ≡ kept flushed log.old.groups.items) }
    // Where the file had the log's groups, it has those that the log has now.
    ensures kept { OnOk result (TellsFiles (V.disk vault.old) →
        log_of ((V.disk vault.old).files log.old.journal.file) ≡ Ok log.old.groups.items →
        log_of ((V.disk vault.new).files log.old.journal.file) ≡ Ok log.new.groups.items) }
    ensures stands { OnOk result (TellsFiles (V.disk vault.old) →
        IsJournalWithGate log.new.journal.gate ((V.disk vault.new).files log.old.journal.file)) }
    ensures file { log.new.journal.file ≡ log.old.journal.file }
    ensures reads { TellsFiles (V.disk vault.old) → MayBeSettled flushed log.old.groups.items
        ((V.disk vault.old).files log.old.journal.file) ((V.disk vault.new).files log.old.journal.file) }
    ensures disk { ChangesFile log.old.journal.file (V.disk vault.old) (V.disk vault.new)
        (MayBeSettled flushed log.old.groups.items ((V.disk vault.old).files log.old.journal.file)) }
    ensures there { OnOk result (IsSettledAt log.old.journal.file (V.disk vault.new)) }
    ensures room { log.new.journal.room ≤ V.room vault.new log.old.journal.file }
    ensures rooms { RoomsStay (V.room vault.old) (V.room vault.new) }
    ensures cause { HasWriteCause (V.fault_count vault.old) (V.fault_count vault.new) result }
{
    if !log.groups.is_empty() && is_in_tables(&log.groups, flushed) {
        log.journal.reset(vault)?;
        log.groups.clear();
    }
    Ok(())
}

/// Whether no group begins above `flushed`.
fn is_in_tables(groups: &[Logged], flushed: u64) -> bool
    ensures { result ≡ is_empty (later flushed groups.now) }
{
    groups.iter().all(|logged| logged.group.first <= flushed)
}
