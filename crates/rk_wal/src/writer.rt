// The journals of both logs.
ghost use Rattle.std.specs.Prelude.{◌≡◌, ◌≤◌, ◌+◌, ◌⊎◌, ℕ, not, length, IfOk, OnOk, IsErrOf};
ghost use Rattle.rk_outside.specs.Disks.{TellsFiles, TellsMoments, IsHonest, EachImage, LeavesOnly, moment};
ghost use Rattle.rk_outside.specs.Vaults.{RoomsStay};
ghost use Rattle.rk_gate.specs.Calls.{ChangesFile, HasWriteCause};
ghost use Rattle.rk_gate.specs.Changes.{JournalState, HasWithOrWithout};
ghost use Rattle.rk_wal.specs.Writing.{WritesTo, HasRoom, HasMemoryIn, HasStoreOf, HasMore, IsAsBefore, file_of, journal_of};

use rk_gate::Journal;
use rk_outside::{StoreError, Vault};
use std::marker::Model;

/// The two logs of a store, and which of them is written to. Contracts see the journals and that flag.
///
/// After a call that was refused with `WriteFault` the store is opened again.
#[derive(Debug, Drop)]
pub struct Writer {
    first: Journal,
    second: Journal,
    in_second: bool,
}

impl Model for Writer {
    ghost use Rattle.std.specs.Prelude.{◌≡◌};
    ghost use Rattle.rk_wal.specs.Writing.{WriterSeen};

    ghost Value = { WriterSeen };

    ghost view = { λ w. record { first = w.first; second = w.second; in_second = w.in_second } };

    ghost invariant = { λ w. (w.first.file ≡ 1) × (w.second.file ≡ 2) };
}

impl Writer {
    /// A writer over the journals of the files 1 and 2, which writes to the second or the first.
    pub fn new(first: Journal, second: Journal, in_second: bool) -> Writer
        requires first { first.file ≡ 1 }
        requires second { second.file ≡ 2 }
        ensures { result ≡ record { first = first; second = second; in_second = in_second } }
    {
        Writer {
            first,
            second,
            in_second,
        }
    }

    /// Writes to the other log from now on.
    pub fn switch(&mut self)
        ensures { self.new ≡ record self.old { in_second = not self.old.in_second } }
    {
        self.in_second = !self.in_second;
    }

    /// Takes the memory of the next `count` appends of at most `len` bytes each to one of the logs, which then never answer
    /// `Memory`.
    ///
    /// # Errors
    ///
    /// `WriteFault` where the vault failed, and `Memory`.
    pub fn reserve<V: Vault>(
        &mut self,
        vault: &mut V,
        in_second: bool,
        count: u64,
        len: u64,
    ) -> Result<(), StoreError>
        requires room { HasRoom self.old (V.room vault.old) }
        ensures memory { OnOk result (HasMemoryIn in_second self.new count len) }
        ensures other { journal_of (not in_second) self.new ≡ journal_of (not in_second) self.old }
        ensures before { IsAsBefore self.old self.new }
        ensures same { V.disk vault.new ≡ V.disk vault.old }
        ensures room { HasRoom self.new (V.room vault.new) }
        ensures rooms { RoomsStay (V.room vault.old) (V.room vault.new) }
        ensures cause { HasWriteCause (V.fault_count vault.old) (V.fault_count vault.new) result }
    {
        if in_second {
            self.second.reserve(vault, count, len)
        } else {
            self.first.reserve(vault, count, len)
        }
    }

    /// Adds a payload to the log that is written to. At `Ok` each crash from then on leaves it.
    ///
    /// # Errors
    ///
    /// `WriteFault` where the vault failed: opened again, the store has the payload or not. And `Memory`, after which the disk is
    /// as before, and which never comes after a [`reserve`](Writer::reserve) for it.
    pub fn append<V: Vault>(&mut self, vault: &mut V, payload: &[u8]) -> Result<(), StoreError>
        // The vault reads as this writer left it, and so does each image.
        requires stands { TellsFiles (V.disk vault.old) → WritesTo self.old (V.disk vault.old).files }
        requires images { IsHonest (V.disk vault.old) → EachImage (V.disk vault.old) (HasStoreOf (V.disk vault.old).files) }
        requires room { HasRoom self.old (V.room vault.old) }

        ensures added { OnOk result (TellsFiles (V.disk vault.old) →
            HasMore self.old.in_second payload.now (V.disk vault.old).files (V.disk vault.new).files) }
        ensures stands { OnOk result (TellsFiles (V.disk vault.old) → WritesTo self.new (V.disk vault.new).files) }
        ensures reads { TellsFiles (V.disk vault.old) →
            HasStoreOf (V.disk vault.old).files (V.disk vault.new).files
            ⊎ HasMore self.old.in_second payload.now (V.disk vault.old).files (V.disk vault.new).files }

        // Each image of each moment has the store as it was, or with the record more, and other files as they were.
        ensures disk { ChangesFile (file_of self.old.in_second) (V.disk vault.old) (V.disk vault.new)
            (HasWithOrWithout payload.now ((V.disk vault.old).files (file_of self.old.in_second))) }
        ensures crash { IsHonest (V.disk vault.old) → LeavesOnly (V.disk vault.old) (V.disk vault.new) (λ image.
            HasStoreOf (V.disk vault.old).files image ⊎ HasMore self.old.in_second payload.now (V.disk vault.old).files image) }
        ensures there { OnOk result (IsHonest (V.disk vault.new) →
            EachImage (V.disk vault.new) (HasStoreOf (V.disk vault.new).files)) }
        ensures moments { OnOk result (TellsFiles (V.disk vault.old) → TellsMoments (V.disk vault.old) →
            moment (V.disk vault.new) ≡ moment (V.disk vault.old) + 4) }

        ensures flag { self.new.in_second ≡ self.old.in_second }
        ensures memory { IsErrOf result StoreError.Memory → V.disk vault.new ≡ V.disk vault.old }
        ensures reserved { HasMemoryIn self.old.in_second self.old 1 (length payload.now) → IsErrOf result StoreError.Memory → ⊥ }
        ensures left { (count len : ℕ) → HasMemoryIn self.old.in_second self.old (count + 1) len → length payload.now ≤ len →
            OnOk result (HasMemoryIn self.old.in_second self.new count len) }
        ensures other { journal_of (not self.old.in_second) self.new ≡ journal_of (not self.old.in_second) self.old }
        ensures room { HasRoom self.new (V.room vault.new) }
        ensures rooms { RoomsStay (V.room vault.old) (V.room vault.new) }
        ensures cause { HasWriteCause (V.fault_count vault.old) (V.fault_count vault.new) result }
    {
        if self.in_second {
            self.second.append(vault, payload)
        } else {
            self.first.append(vault, payload)
        }
    }
}
