// The files of tables.
ghost use Rattle.std.specs.Prelude.{◌≡◌, ◌≤◌, ℕ, None, IfOk, OnOk};
ghost use Rattle.rk_outside.specs.Disks.{TellsFiles, FilesStayBut};
ghost use Rattle.rk_outside.specs.Vaults.{AreNumbers, RoomsStay};
ghost use Rattle.rk_gate.specs.Calls.{HasReadCause, HasWriteCause};
ghost use Rattle.rk_opening.specs.Openings.{IsLeast, HasOpenCause};
ghost use Rattle.rk_opening.specs.Changing.{ChangesOnly, IsTable};

use rk_outside::{Failed, StoreError, Vault, VaultError};
use std::alloc::Global;

/// The files from this one on are those of tables.
const FIRST_TABLE: u64 = 16;

/// The least number of a table's file, and none where there is none.
pub(crate) fn least_table<V: Vault>(alloc: Global, vault: &mut V) -> Result<Option<u64>, StoreError>
    ensures least { TellsFiles (V.disk vault.old) → IfOk result (IsLeast (V.disk vault.old).files) }
    ensures same { V.disk vault.new ≡ V.disk vault.old }
    ensures rooms { RoomsStay (V.room vault.old) (V.room vault.new) }
    ensures cause { HasReadCause 0 (λ at. ⊥) (V.fault_count vault.old) (V.fault_count vault.new) result }
{
    let numbers = file_numbers(alloc, vault)?;
    for number in &numbers {
        if *number >= FIRST_TABLE {
            return Ok(Some(*number));
        }
    }
    Ok(None)
}

/// Removes the files of tables, where the newest version names none.
pub(crate) fn remove_tables<V: Vault>(alloc: Global, vault: &mut V) -> Result<(), StoreError>
    ensures removed { OnOk result (TellsFiles (V.disk vault.old) →
        (f : ℕ) → IsTable f → (V.disk vault.new).files f ≡ None) }
    ensures disk { ChangesOnly IsTable (V.disk vault.old) (V.disk vault.new) }
    ensures rooms { RoomsStay (V.room vault.old) (V.room vault.new) }
    ensures cause { HasOpenCause (λ Says. ⊥) (V.disk vault.old).files
        (V.fault_count vault.old) (V.fault_count vault.new) result }
{
    let numbers = file_numbers(alloc, vault)?;
    for number in &numbers {
        if *number >= FIRST_TABLE {
            remove_table(vault, *number)?;
        }
    }
    Ok(())
}

/// Removes the file of a table.
fn remove_table<V: Vault>(vault: &mut V, file: u64) -> Result<(), StoreError>
    requires { IsTable file }
    ensures removed { OnOk result (TellsFiles (V.disk vault.old) → (V.disk vault.new).files file ≡ None) }
    ensures others { TellsFiles (V.disk vault.old) → FilesStayBut file (V.disk vault.old).files (V.disk vault.new).files }
    ensures disk { ChangesOnly IsTable (V.disk vault.old) (V.disk vault.new) }
    ensures rooms { RoomsStay (V.room vault.old) (V.room vault.new) }
    ensures cause { HasWriteCause (V.fault_count vault.old) (V.fault_count vault.new) result }
{
    match vault.remove(file) {
        Ok(()) => Ok(()),
        Err(Failed) => Err(StoreError::WriteFault {
            faults: vault.faults(),
        }),
    }
}

/// The numbers of the files, rising.
fn file_numbers<V: Vault>(alloc: Global, vault: &mut V) -> Result<Vec<u64>, StoreError>
    ensures numbers { TellsFiles (V.disk vault.old) → IfOk result (λ ns. AreNumbers (V.disk vault.old).files ns.items) }
    ensures same { V.disk vault.new ≡ V.disk vault.old }
    ensures rooms { RoomsStay (V.room vault.old) (V.room vault.new) }
    ensures cause { HasReadCause 0 (λ at. ⊥) (V.fault_count vault.old) (V.fault_count vault.new) result }
{
    match vault.numbers(alloc) {
        Ok(numbers) => Ok(numbers),
        Err(VaultError::Memory) => Err(StoreError::Memory),
        Err(VaultError::Failed) => Err(StoreError::ReadFault {
            faults: vault.faults(),
        }),
    }
}
