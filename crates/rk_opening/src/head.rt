// The head of a store.
ghost use Rattle.std.specs.Prelude.{◌≡◌, IfOk, IsErrOf};
ghost use Rattle.rk_outside.specs.Disks.{TellsFiles};
ghost use Rattle.rk_outside.specs.Vaults.{RoomsStay};
ghost use Rattle.rk_gate.specs.Calls.{HasReadCause};
ghost use Rattle.rk_opening.specs.Stores.{has_magic};

use rk_outside::{Failed, StoreError, Vault};

/// The number of the head's file.
pub(crate) const HEAD: u64 = 0;

/// Whether the head is that of a store.
pub(crate) fn has_head<V: Vault>(vault: &mut V) -> Result<bool, StoreError>
    ensures head { TellsFiles (V.disk vault.old) → IfOk result (λ there. there ≡ has_magic ((V.disk vault.old).files 0)) }
    ensures same { V.disk vault.new ≡ V.disk vault.old }
    ensures rooms { RoomsStay (V.room vault.old) (V.room vault.new) }
    ensures cause { HasReadCause 0 (λ at. ⊥) (V.fault_count vault.old) (V.fault_count vault.new) result }
    ensures no_memory { IsErrOf result StoreError.Memory → ⊥ }
{
    let mut front = [0; 8];
    match vault.read_at(HEAD, 0, &mut front) {
        Ok(read) => Ok(front[..read] == b"rkstore1"[..]),
        Err(Failed) => Err(StoreError::ReadFault {
            faults: vault.faults(),
        }),
    }
}
