// The syncs before anything is read.
ghost use Rattle.std.specs.Prelude.{◌≡◌, ℕ, ◌<◌, OnOk};
ghost use Rattle.rk_outside.specs.Vaults.{RoomsStay};
ghost use Rattle.rk_gate.specs.Calls.{HasWriteCause};
ghost use Rattle.rk_opening.specs.Syncing.{OnlySyncs, IsSettledAt};

use rk_outside::{Failed, StoreError, Vault};

/// The files from 0 up to this one are the head, the logs and the manifest.
pub(crate) const FRONT_END: u64 = 5;

/// Syncs the files that an opening reads.
pub(crate) fn sync_front<V: Vault>(vault: &mut V) -> Result<(), StoreError>
    ensures disk { OnlySyncs (V.disk vault.old) (V.disk vault.new) }
    ensures settled { OnOk result ((f : ℕ) → f < 5 → IsSettledAt f (V.disk vault.new)) }
    ensures rooms { RoomsStay (V.room vault.old) (V.room vault.new) }
    ensures cause { HasWriteCause (V.fault_count vault.old) (V.fault_count vault.new) result }
{
    for file in 0..FRONT_END {
        sync_file(vault, file)?;
    }
    Ok(())
}

/// Syncs a file.
pub(crate) fn sync_file<V: Vault>(vault: &mut V, file: u64) -> Result<(), StoreError>
    ensures disk { OnlySyncs (V.disk vault.old) (V.disk vault.new) }
    ensures settled { OnOk result (IsSettledAt file (V.disk vault.new)) }
    ensures rooms { RoomsStay (V.room vault.old) (V.room vault.new) }
    ensures cause { HasWriteCause (V.fault_count vault.old) (V.fault_count vault.new) result }
{
    match vault.sync(file) {
        Ok(()) => Ok(()),
        Err(Failed) => Err(StoreError::WriteFault {
            faults: vault.faults(),
        }),
    }
}
