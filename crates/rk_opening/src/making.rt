// A new store.
ghost use Rattle.std.specs.Prelude.{◌≡◌, ◌<◌, ◌⊎◌, ℕ, OnOk, true, false, Ok, Some, [], ◌∷◌};
ghost use Rattle.rk_outside.specs.Disks.{TellsFiles, TellsAlike, IsHonest, EachImage, LeavesOnly};
ghost use Rattle.rk_outside.specs.Vaults.{RoomsStay};
ghost use Rattle.rk_gate.specs.Calls.{ChangesFile, HasWriteCause};
ghost use Rattle.rk_gate.specs.Changes.{IsAnything};
ghost use Rattle.rk_opening.specs.Stores.{IsUnmade, new_store, has_magic, store_of};
ghost use Rattle.rk_opening.specs.Openings.{IsMade, MayBeMade, OthersStayAbove};
ghost use Rattle.rk_opening.specs.Changing.{ChangesOnly, IsJournal};
ghost use Rattle.rk_opening.specs.Syncing.{IsSettledAt};

use crate::head::HEAD;
use crate::syncing::FRONT_END;
use rk_gate::Journal;
use rk_outside::{Failed, StoreError, Vault, VaultError};
use std::alloc::Global;

/// Makes a store: empty journals in the files 1 to 4, and then the head.
pub(crate) fn make_store<V: Vault>(alloc: Global, vault: &mut V) -> Result<(), StoreError>
    requires reads { TellsFiles (V.disk vault.old) → IsUnmade (V.disk vault.old).files }
    requires images { IsHonest (V.disk vault.old) →
        EachImage (V.disk vault.old) (λ image. has_magic (image 0) ≡ false) }
    ensures head { OnOk result (TellsFiles (V.disk vault.old) → has_magic ((V.disk vault.new).files 0) ≡ true) }
    ensures store { OnOk result (TellsFiles (V.disk vault.old) → store_of (V.disk vault.new).files ≡ Ok new_store) }
    ensures others { TellsFiles (V.disk vault.old) → OthersStayAbove (V.disk vault.old).files (V.disk vault.new).files }

    // Whatever it answers, what reads give is no store or a new one, and so is each image of each moment since its start.
    ensures reads { TellsFiles (V.disk vault.old) → IsUnmade (V.disk vault.new).files ⊎ IsMade (V.disk vault.new).files }
    ensures told { TellsAlike (V.disk vault.old) (V.disk vault.new) }
    ensures honest { IsHonest (V.disk vault.old) → IsHonest (V.disk vault.new) }
    ensures crash { IsHonest (V.disk vault.old) →
        LeavesOnly (V.disk vault.old) (V.disk vault.new) (MayBeMade (V.disk vault.old)) }
    ensures settled { OnOk result ((f : ℕ) → f < 5 → IsSettledAt f (V.disk vault.new)) }

    ensures rooms { RoomsStay (V.room vault.old) (V.room vault.new) }
    ensures cause { HasWriteCause (V.fault_count vault.old) (V.fault_count vault.new) result }
{
    make_journals(alloc, vault)?;
    write_head(alloc, vault)
}

/// Makes the files 1 to 4 empty journals.
fn make_journals<V: Vault>(alloc: Global, vault: &mut V) -> Result<(), StoreError>
    ensures bytes { OnOk result (TellsFiles (V.disk vault.old) →
        (f : ℕ) → IsJournal f → (V.disk vault.new).files f ≡ Some (0 ∷ [])) }
    ensures settled { OnOk result ((f : ℕ) → IsJournal f → IsSettledAt f (V.disk vault.new)) }
    ensures disk { ChangesOnly IsJournal (V.disk vault.old) (V.disk vault.new) }
    ensures rooms { RoomsStay (V.room vault.old) (V.room vault.new) }
    ensures cause { HasWriteCause (V.fault_count vault.old) (V.fault_count vault.new) result }
{
    for file in 1..FRONT_END {
        Journal::create(alloc, vault, file)?;
    }
    Ok(())
}

/// Writes the head.
fn write_head<V: Vault>(alloc: Global, vault: &mut V) -> Result<(), StoreError>
    ensures head { OnOk result (TellsFiles (V.disk vault.old) → has_magic ((V.disk vault.new).files 0) ≡ true) }
    ensures settled { OnOk result (IsSettledAt 0 (V.disk vault.new)) }
    ensures disk { ChangesFile 0 (V.disk vault.old) (V.disk vault.new) IsAnything }
    ensures rooms { RoomsStay (V.room vault.old) (V.room vault.new) }
    ensures cause { HasWriteCause (V.fault_count vault.old) (V.fault_count vault.new) result }
{
    match vault.make_room(alloc, HEAD, 8) {
        Ok(()) => {}
        Err(VaultError::Memory) => return Err(StoreError::Memory),
        Err(VaultError::Failed) => return Err(write_fault(vault)),
    }
    if let Err(Failed) = vault.write_at(HEAD, 0, b"rkstore1") {
        return Err(write_fault(vault));
    }
    match vault.sync(HEAD) {
        Ok(()) => Ok(()),
        Err(Failed) => Err(write_fault(vault)),
    }
}

// The refusal of a change, with the vault's count.
fn write_fault<V: Vault>(vault: &V) -> StoreError
    ensures { result ≡ StoreError.WriteFault (V.fault_count vault.now) }
{
    StoreError::WriteFault {
        faults: vault.faults(),
    }
}
