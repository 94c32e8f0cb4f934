// Changes of a file of a vault, refused as the store refuses.
ghost use Rattle.std.specs.Prelude.{◌≡◌, ◌+◌, ◌≤◌, ◌<◌, [], ◌∷◌, length, option_map, is_ok, OnOk, IfErr, IsErrOf, IsSomeAnd};
ghost use Rattle.rk_outside.specs.Causes.{HasCause};
ghost use Rattle.rk_outside.specs.Disks.{TellsFiles, TellsMoments, moment, done, Write, Cut, Sync};
ghost use Rattle.rk_outside.specs.Vaults.{RoomsStay};
ghost use Rattle.rk_gate.specs.Calls.{ChangesFile, HasDone, HasWriteCause};
ghost use Rattle.rk_gate.specs.Reading.{IsFileOver, IsImageOver, HasFrontOf, IsImageCut, IsSynced};

use rk_outside::{Failed, StoreError, Vault, VaultError};
use std::alloc::Global;

/// What a change of this vault answered, with its count where it failed.
pub(crate) fn or_write_fault<V: Vault>(
    vault: &V,
    answer: Result<(), Failed>,
) -> Result<(), StoreError>
    ensures ok { is_ok result ≡ is_ok answer }
    ensures fault { IfErr result (λ e. e ≡ StoreError.WriteFault (V.fault_count vault.now)) }
{
    match answer {
        Ok(()) => Ok(()),
        Err(Failed) => Err(StoreError::WriteFault {
            faults: vault.faults(),
        }),
    }
}

/// Makes room in a file.
pub(crate) fn make_room<V: Vault>(
    vault: &mut V,
    alloc: Global,
    file: u64,
    upto: u64,
) -> Result<(), StoreError>
    ensures made { OnOk result (upto ≤ V.room vault.new file) }
    ensures same { V.disk vault.new ≡ V.disk vault.old }
    ensures rooms { RoomsStay (V.room vault.old) (V.room vault.new) }
    ensures cause { HasWriteCause (V.fault_count vault.old) (V.fault_count vault.new) result }
{
    match vault.make_room(alloc, file, upto) {
        Ok(()) => Ok(()),
        Err(VaultError::Memory) => Err(StoreError::Memory),
        Err(VaultError::Failed) => Err(StoreError::WriteFault {
            faults: vault.faults(),
        }),
    }
}

/// Writes bytes into a file that is there, and syncs it.
pub(crate) fn write_and_sync<V: Vault>(
    vault: &mut V,
    file: u64,
    at: u64,
    bytes: &[u8],
) -> Result<(), StoreError>
    requires some { 0 < length bytes.now }
    requires room { at + length bytes.now ≤ V.room vault.old file }
    requires there { TellsFiles (V.disk vault.old) → IsSomeAnd ((V.disk vault.old).files file) (λ old. at ≤ length old) }
    ensures done { OnOk result (TellsFiles (V.disk vault.old) →
        (V.disk vault.new).files file ≡ done (Write at bytes.now) ((V.disk vault.old).files file)) }
    ensures reads { TellsFiles (V.disk vault.old) →
        IsFileOver at (length bytes.now) ((V.disk vault.old).files file) ((V.disk vault.new).files file) }
    ensures synced { OnOk result (IsSynced file (V.disk vault.new)) }
    ensures moments { OnOk result (TellsFiles (V.disk vault.old) → TellsMoments (V.disk vault.old) →
        moment (V.disk vault.new) ≡ moment (V.disk vault.old) + 2) }
    ensures changes { OnOk result (HasDone file (Write at bytes.now ∷ Sync ∷ []) (V.disk vault.old) (V.disk vault.new)) }
    ensures disk { ChangesFile file (V.disk vault.old) (V.disk vault.new)
        (IsImageOver ((V.disk vault.old).moments.now file) at (length bytes.now)) }
    ensures rooms { RoomsStay (V.room vault.old) (V.room vault.new) }
    ensures cause { HasWriteCause (V.fault_count vault.old) (V.fault_count vault.new) result }
    ensures only_faults { IsErrOf result StoreError.Memory → ⊥ }
{
    let written = vault.write_at(file, at, bytes);
    or_write_fault(vault, written)?;
    let synced = vault.sync(file);
    or_write_fault(vault, synced)
}

/// Cuts a file that is there, and syncs it.
pub(crate) fn cut_and_sync<V: Vault>(vault: &mut V, file: u64, len: u64) -> Result<(), StoreError>
    requires there { TellsFiles (V.disk vault.old) → IsSomeAnd ((V.disk vault.old).files file) (λ old. len ≤ length old) }
    ensures done { OnOk result (TellsFiles (V.disk vault.old) →
        (V.disk vault.new).files file ≡ done (Cut len) ((V.disk vault.old).files file)) }
    ensures reads { TellsFiles (V.disk vault.old) →
        HasFrontOf len ((V.disk vault.old).files file) ((V.disk vault.new).files file) }
    ensures synced { OnOk result (IsSynced file (V.disk vault.new)) }
    ensures moments { OnOk result (TellsFiles (V.disk vault.old) → TellsMoments (V.disk vault.old) →
        moment (V.disk vault.new) ≡ moment (V.disk vault.old) + 2) }
    ensures changes { OnOk result (HasDone file (Cut len ∷ Sync ∷ []) (V.disk vault.old) (V.disk vault.new)) }
    ensures disk { ChangesFile file (V.disk vault.old) (V.disk vault.new)
        (IsImageCut ((V.disk vault.old).moments.now file) len) }
    ensures rooms { RoomsStay (V.room vault.old) (V.room vault.new) }
    ensures cause { HasWriteCause (V.fault_count vault.old) (V.fault_count vault.new) result }
    ensures only_faults { IsErrOf result StoreError.Memory → ⊥ }
{
    let cut = vault.cut(file, len);
    or_write_fault(vault, cut)?;
    let settled = vault.sync(file);
    or_write_fault(vault, settled)
}
