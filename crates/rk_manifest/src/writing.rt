// A record written into a journal that is emptied first, or not.
ghost use Rattle.std.specs.Prelude.{◌≡◌, ◌≤◌, Ok, OnOk, IsErrOf};
ghost use Rattle.rk_outside.specs.Disks.{TellsFiles, IsHonest, EachImage};
ghost use Rattle.rk_outside.specs.Vaults.{RoomsStay};
ghost use Rattle.rk_gate.specs.Calls.{ChangesFile, HasWriteCause};
ghost use Rattle.rk_gate.specs.Changes.{HasRecordsOf, IsJournalWithGate, after_append};
ghost use Rattle.rk_gate.specs.Records.{recovered_file};
ghost use Rattle.rk_manifest.specs.Calls.{start_of, MayStart, MayHold};

use rk_gate::Journal;
use rk_outside::{StoreError, Vault};

/// Adds a payload to a journal, which is emptied first where that is asked. It finds all memory before it changes
/// anything.
pub(crate) fn write_into<V: Vault>(
    journal: &mut Journal,
    vault: &mut V,
    emptied: bool,
    payload: &[u8],
) -> Result<(), StoreError>
    requires reads { TellsFiles (V.disk vault.old) → IsJournalWithGate journal.old.gate ((V.disk vault.old).files journal.old.file) }
    requires images { IsHonest (V.disk vault.old) → EachImage (V.disk vault.old)
        (λ image. HasRecordsOf ((V.disk vault.old).files journal.old.file) (image journal.old.file)) }
    requires room { journal.old.room ≤ V.room vault.old journal.old.file }
    ensures added { OnOk result (TellsFiles (V.disk vault.old) → recovered_file ((V.disk vault.new).files journal.old.file)
        ≡ after_append payload.now (start_of emptied (recovered_file ((V.disk vault.old).files journal.old.file)))) }
    ensures stands { OnOk result (TellsFiles (V.disk vault.old) →
        IsJournalWithGate journal.new.gate ((V.disk vault.new).files journal.old.file)) }
    ensures reads { TellsFiles (V.disk vault.old) →
        MayHold emptied payload.now ((V.disk vault.old).files journal.old.file) ((V.disk vault.new).files journal.old.file) }
    ensures disk { ChangesFile journal.old.file (V.disk vault.old) (V.disk vault.new)
        (MayHold emptied payload.now ((V.disk vault.old).files journal.old.file)) }
    ensures there { OnOk result (IsHonest (V.disk vault.new) → EachImage (V.disk vault.new)
        (λ image. HasRecordsOf ((V.disk vault.new).files journal.old.file) (image journal.old.file))) }
    ensures file { journal.new.file ≡ journal.old.file }
    ensures memory { IsErrOf result StoreError.Memory →
        (V.disk vault.new ≡ V.disk vault.old) × (journal.new.gate ≡ journal.old.gate) }
    ensures room { journal.new.room ≤ V.room vault.new journal.new.file }
    ensures rooms { RoomsStay (V.room vault.old) (V.room vault.new) }
    ensures cause { HasWriteCause (V.fault_count vault.old) (V.fault_count vault.new) result }
{
    journal.reserve(vault, 1, payload.len() as u64)?;
    empty_first(journal, vault, emptied)?;
    journal.append(vault, payload)
}

/// Empties a journal where that is asked.
fn empty_first<V: Vault>(
    journal: &mut Journal,
    vault: &mut V,
    emptied: bool,
) -> Result<(), StoreError>
    requires reads { TellsFiles (V.disk vault.old) → IsJournalWithGate journal.old.gate ((V.disk vault.old).files journal.old.file) }
    requires images { IsHonest (V.disk vault.old) → EachImage (V.disk vault.old)
        (λ image. HasRecordsOf ((V.disk vault.old).files journal.old.file) (image journal.old.file)) }
    requires room { journal.old.room ≤ V.room vault.old journal.old.file }
    ensures emptied { OnOk result (TellsFiles (V.disk vault.old) → recovered_file ((V.disk vault.new).files journal.old.file)
        ≡ start_of emptied (recovered_file ((V.disk vault.old).files journal.old.file))) }
    ensures stands { OnOk result (TellsFiles (V.disk vault.old) →
        IsJournalWithGate journal.new.gate ((V.disk vault.new).files journal.old.file)) }
    ensures reads { TellsFiles (V.disk vault.old) →
        MayStart emptied ((V.disk vault.old).files journal.old.file) ((V.disk vault.new).files journal.old.file) }
    ensures disk { ChangesFile journal.old.file (V.disk vault.old) (V.disk vault.new)
        (MayStart emptied ((V.disk vault.old).files journal.old.file)) }
    ensures there { OnOk result (IsHonest (V.disk vault.new) → EachImage (V.disk vault.new)
        (λ image. HasRecordsOf ((V.disk vault.new).files journal.old.file) (image journal.old.file))) }
    ensures file { journal.new.file ≡ journal.old.file }
    ensures gate { journal.new.gate ≤ journal.old.gate }
    ensures reserved { 1 ≤ journal.old.room → IsErrOf result StoreError.Memory → ⊥ }
    ensures grows { (journal.old.room ≤ journal.new.room) × (journal.old.buffer ≤ journal.new.buffer) }
    ensures room { journal.new.room ≤ V.room vault.new journal.new.file }
    ensures rooms { RoomsStay (V.room vault.old) (V.room vault.new) }
    ensures cause { HasWriteCause (V.fault_count vault.old) (V.fault_count vault.new) result }
{
    if emptied {
        journal.reset(vault)?;
    }
    Ok(())
}
