ghost use Rattle.std.specs.Prelude.{◌≡◌, ℕ, ◌+◌, ◌*◌, ◌^◌, IfSome, IfNone, ◌≤◌, [], ◌∷◌, Ok, Err, Some, length, option_map, vec_capacity, is_ok, if◌then◌else◌, ◌==◌, OnOk, OnErr, IfOk, IsErrOf};
ghost use Rattle.rk_outside.specs.Disks.{TellsFiles, TellsMoments, IsHonest, EachImage, bytes_in, moment};
ghost use Rattle.rk_outside.specs.Vaults.{RoomsStay};
ghost use Rattle.rk_gate.specs.Calls.{ChangesFile, HasDone, HasWriteCause, HasReadCause};
ghost use Rattle.rk_gate.specs.Changes.{HasMemory, HasRecordsOf, HasWithOrWithout, HasAllOrNone, IsAnything, IsJournalWithGate, after_append, append_changes, reset_changes, create_changes, appended, behind_gate, emptied};
ghost use Rattle.rk_gate.specs.Records.{recovered_file};

use crate::Record;
use crate::changing::{cut_and_sync, make_room, or_write_fault, write_and_sync};
use crate::reading::{CLOSED, HEAD_BYTES, OPEN, read_records};
use byteorder::{BigEndian, ByteOrder};
use rk_outside::{Failed, NoMemory, StoreError, Vault};
use std::alloc::Global;
use std::marker::Model;

/// A journal in a file of a vault. Contracts see its file's number, the place of its closed gate, up to which length of
/// the file it has made room, and for how many bytes its buffer has memory.
///
/// After a call that was refused with `WriteFault` it is recovered again, behind a sync of its file.
#[derive(Debug, Drop)]
pub struct Journal {
    file: u64,
    gate: u64,
    room: u64,
    buffer: Vec<u8>,
}

impl Model for Journal {
    ghost use Rattle.std.specs.Prelude.{◌<◌, ◌^◌, vec_capacity};
    ghost use Rattle.rk_gate.specs.Changes.{JournalState};

    ghost Value = { JournalState };

    ghost view = { λ j. record { file = j.file; gate = j.gate; room = j.room; buffer = vec_capacity j.buffer } };

    ghost invariant = { λ j. j.room < 2 ^ 64 };
}

impl Journal {
    /// Makes a file an empty journal: the one byte of a closed gate. It may be there or not.
    ///
    /// Three calls change the disk: the byte is written at its front, the file is cut to it, and synced. Until `Ok` a
    /// crash may leave anything of this file, since one that was not there may be left with any bytes.
    ///
    /// # Errors
    ///
    /// `WriteFault` where the vault failed, and `Memory`, after which the disk is as before.
    pub fn create<V: Vault>(alloc: Global, vault: &mut V, file: u64) -> Result<Journal, StoreError>
        ensures file { IfOk result (λ journal. journal.file ≡ file) }
        ensures gate { IfOk result (λ journal. journal.gate ≡ 0) }
        ensures bytes { OnOk result (TellsFiles (V.disk vault.old) → (V.disk vault.new).files file ≡ Some (0 ∷ [])) }
        ensures empty { OnOk result (TellsFiles (V.disk vault.old) → recovered_file ((V.disk vault.new).files file) ≡ Ok []) }
        ensures stands { OnOk result (TellsFiles (V.disk vault.old) → IsJournalWithGate 0 ((V.disk vault.new).files file)) }

        // Other files stay, as reads give them and in each image.
        ensures disk { ChangesFile file (V.disk vault.old) (V.disk vault.new) IsAnything }
        ensures there { OnOk result (IsHonest (V.disk vault.new) →
            EachImage (V.disk vault.new) (λ image. image file ≡ (V.disk vault.new).files file)) }
        ensures moments { OnOk result (TellsFiles (V.disk vault.old) → TellsMoments (V.disk vault.old) →
            moment (V.disk vault.new) ≡ moment (V.disk vault.old) + 3) }
        ensures changes { OnOk result (HasDone file create_changes (V.disk vault.old) (V.disk vault.new)) }

        ensures memory { IsErrOf result StoreError.Memory → V.disk vault.new ≡ V.disk vault.old }
        ensures room { IfOk result (λ journal. journal.room ≤ V.room vault.new file) }
        ensures rooms { RoomsStay (V.room vault.old) (V.room vault.new) }
        ensures cause { HasWriteCause (V.fault_count vault.old) (V.fault_count vault.new) result }
    {
        make_room(vault, alloc, file, 1)?;
        let written = vault.write_at(file, 0, &[CLOSED]);
        or_write_fault(vault, written)?;
        let cut = vault.cut(file, 1);
        or_write_fault(vault, cut)?;
        let synced = vault.sync(file);
        or_write_fault(vault, synced)?;
        Ok(Journal {
            file,
            gate: 0,
            room: 1,
            buffer: Vec::new(alloc),
        })
    }

    /// The journal in a file, and its open records with their places. A file with changes pending is synced first.
    ///
    /// # Errors
    ///
    /// `BadRecord` with the place of the first open record that is not whole or that no byte follows, or with 0 where
    /// the file is not there or is empty; `ReadFault` where the vault failed; and `Memory`.
    pub fn recover<V: Vault>(
        alloc: Global,
        vault: &mut V,
        file: u64,
    ) -> Result<(Journal, Vec<Record>), StoreError>
        ensures records { TellsFiles (V.disk vault.old) →
            IfOk result (λ r. recovered_file ((V.disk vault.old).files file) ≡ Ok r.1.items) }
        ensures stands { TellsFiles (V.disk vault.old) →
            IfOk result (λ r. IsJournalWithGate r.0.gate ((V.disk vault.old).files file)) }
        ensures file { IfOk result (λ r. r.0.file ≡ file) }

        // A bad record is named exactly where the contents have it first.
        ensures cause { HasReadCause file
            (λ at. TellsFiles (V.disk vault.old) → recovered_file ((V.disk vault.old).files file) ≡ Err at)
            (V.fault_count vault.old) (V.fault_count vault.new) result }
        ensures same { V.disk vault.new ≡ V.disk vault.old }
        ensures room { IfOk result (λ r. r.0.room ≤ V.room vault.new file) }
        ensures rooms { RoomsStay (V.room vault.old) (V.room vault.new) }
    {
        let bytes = read_file(alloc, vault, file)?;
        let (records, gate) = match read_records(alloc, file, &bytes) {
            Ok(read) => read,
            Err(error) => return Err(error),
        };
        let journal = Journal {
            file,
            gate,
            room: 0,
            buffer: Vec::new(alloc),
        };
        Ok((journal, records))
    }

    /// Takes the memory of the next `count` appends of at most `len` bytes each over this vault, and of a reset, which
    /// then never answer `Memory`. With `count` 0 it is for a reset alone.
    ///
    /// # Errors
    ///
    /// `WriteFault` where the vault failed, and `Memory`.
    pub fn reserve<V: Vault>(
        &mut self,
        vault: &mut V,
        count: u64,
        len: u64,
    ) -> Result<(), StoreError>
        requires { self.old.room ≤ V.room vault.old self.old.file }
        ensures memory { OnOk result (HasMemory self.new count len) }
        ensures file { self.new.file ≡ self.old.file }
        ensures gate { self.new.gate ≡ self.old.gate }
        ensures same { V.disk vault.new ≡ V.disk vault.old }

        // Where there is that memory already, it only answers.
        ensures reserved { HasMemory self.old count len → result ≡ Ok tt }
        ensures grows { (self.old.room ≤ self.new.room) × (self.old.buffer ≤ self.new.buffer) }
        ensures room { self.new.room ≤ V.room vault.new self.new.file }
        ensures rooms { RoomsStay (V.room vault.old) (V.room vault.new) }
        ensures cause { HasWriteCause (V.fault_count vault.old) (V.fault_count vault.new) result }
    {
        let Some(upto) = needed(self.gate, count, len) else {
            return Err(StoreError::Memory);
        };
        self.make_ready(vault, upto)?;
        if count > 0 {
            self.buffer.clear();
            self.buffer.reserve((len + HEAD_BYTES) as usize)?;
        }
        Ok(())
    }

    /// Adds a payload. At `Ok` each crash from then on leaves it.
    ///
    /// Four calls change the disk: the record's length, its payload and a closed gate are written behind the closed
    /// gate; the file is synced; the gate is opened; the file is synced.
    ///
    /// # Errors
    ///
    /// `WriteFault` where the vault failed: the journal is then recovered again, and has the payload or not. And
    /// `Memory`, after which the disk is as before, and which never comes after a [`reserve`](Journal::reserve) for it.
    pub fn append<V: Vault>(&mut self, vault: &mut V, payload: &[u8]) -> Result<(), StoreError>
        // The vault reads as this journal left it, and so does each image.
        requires reads { TellsFiles (V.disk vault.old) → IsJournalWithGate self.old.gate ((V.disk vault.old).files self.old.file) }
        requires images { IsHonest (V.disk vault.old) → EachImage (V.disk vault.old)
            (λ image. HasRecordsOf ((V.disk vault.old).files self.old.file) (image self.old.file)) }
        requires room { self.old.room ≤ V.room vault.old self.old.file }

        ensures added { OnOk result (TellsFiles (V.disk vault.old) → recovered_file ((V.disk vault.new).files self.old.file)
            ≡ after_append payload.now (recovered_file ((V.disk vault.old).files self.old.file))) }
        ensures bytes { OnOk result (TellsFiles (V.disk vault.old) → (V.disk vault.new).files self.old.file
            ≡ option_map (appended self.old.gate payload.now) ((V.disk vault.old).files self.old.file)) }
        ensures stands { OnOk result (TellsFiles (V.disk vault.old) →
            IsJournalWithGate self.new.gate ((V.disk vault.new).files self.old.file)) }
        ensures reads { TellsFiles (V.disk vault.old) →
            HasWithOrWithout payload.now ((V.disk vault.old).files self.old.file) ((V.disk vault.new).files self.old.file) }

        // Each image of each moment has the old records, or those and the new one, and of other files what they had.
        ensures disk { ChangesFile self.old.file (V.disk vault.old) (V.disk vault.new)
            (HasWithOrWithout payload.now ((V.disk vault.old).files self.old.file)) }
        ensures there { OnOk result (IsHonest (V.disk vault.new) →
            EachImage (V.disk vault.new) (λ image. image self.old.file ≡ (V.disk vault.new).files self.old.file)) }
        ensures moments { OnOk result (TellsFiles (V.disk vault.old) → TellsMoments (V.disk vault.old) →
            moment (V.disk vault.new) ≡ moment (V.disk vault.old) + 4) }

        // What it writes is as long as the payload and ten bytes, however long the journal is.
        ensures changes { OnOk result (HasDone self.old.file (append_changes self.old.gate payload.now) (V.disk vault.old) (V.disk vault.new)) }

        ensures file { self.new.file ≡ self.old.file }
        ensures gate { self.new.gate ≡ (if is_ok result then self.old.gate + 9 + length payload.now else self.old.gate) }
        ensures memory { IsErrOf result StoreError.Memory → V.disk vault.new ≡ V.disk vault.old }
        ensures reserved { HasMemory self.old 1 (length payload.now) → IsErrOf result StoreError.Memory → ⊥ }
        ensures left { (count len : ℕ) → HasMemory self.old (count + 1) len → length payload.now ≤ len → OnOk result (HasMemory self.new count len) }
        ensures grows { (self.old.room ≤ self.new.room) × (self.old.buffer ≤ self.new.buffer) }
        ensures room { self.new.room ≤ V.room vault.new self.new.file }
        ensures rooms { RoomsStay (V.room vault.old) (V.room vault.new) }
        ensures cause { HasWriteCause (V.fault_count vault.old) (V.fault_count vault.new) result }
    {
        let len = payload.len() as u64;
        self.reserve(vault, 1, len)?;
        spell(&mut self.buffer, payload)?;
        write_and_sync(vault, self.file, self.gate + 1, &self.buffer)?;
        write_and_sync(vault, self.file, self.gate, &[OPEN])?;
        self.gate += HEAD_BYTES + len;
        Ok(())
    }

    /// Takes all records away.
    ///
    /// Where there is an open record four calls change the disk: the first gate is closed, the file synced, cut to that
    /// byte, and synced. Else the last two do it alone, since after a write over the closed gate a crash might leave an
    /// open one.
    ///
    /// # Errors
    ///
    /// `WriteFault` where the vault failed: the journal is then recovered again, and has all its records or none. And
    /// `Memory`, after which the disk is as before, and which never comes after a [`reserve`](Journal::reserve) for it.
    pub fn reset<V: Vault>(&mut self, vault: &mut V) -> Result<(), StoreError>
        // The vault reads as this journal left it, and so does each image.
        requires reads { TellsFiles (V.disk vault.old) → IsJournalWithGate self.old.gate ((V.disk vault.old).files self.old.file) }
        requires images { IsHonest (V.disk vault.old) → EachImage (V.disk vault.old)
            (λ image. HasRecordsOf ((V.disk vault.old).files self.old.file) (image self.old.file)) }
        requires room { self.old.room ≤ V.room vault.old self.old.file }

        ensures emptied { OnOk result (TellsFiles (V.disk vault.old) →
            recovered_file ((V.disk vault.new).files self.old.file) ≡ Ok []) }
        ensures bytes { OnOk result (TellsFiles (V.disk vault.old) → (V.disk vault.new).files self.old.file
            ≡ option_map (emptied self.old.gate) ((V.disk vault.old).files self.old.file)) }
        ensures stands { OnOk result (TellsFiles (V.disk vault.old) →
            IsJournalWithGate self.new.gate ((V.disk vault.new).files self.old.file)) }
        ensures reads { TellsFiles (V.disk vault.old) →
            HasAllOrNone ((V.disk vault.old).files self.old.file) ((V.disk vault.new).files self.old.file) }

        // Each image of each moment has all records or none, and of other files what they had.
        ensures disk { ChangesFile self.old.file (V.disk vault.old) (V.disk vault.new)
            (HasAllOrNone ((V.disk vault.old).files self.old.file)) }
        ensures there { OnOk result (IsHonest (V.disk vault.new) →
            EachImage (V.disk vault.new) (λ image. image self.old.file ≡ (V.disk vault.new).files self.old.file)) }
        ensures moments { OnOk result (TellsFiles (V.disk vault.old) → TellsMoments (V.disk vault.old) →
            moment (V.disk vault.new) ≡ moment (V.disk vault.old) + (if self.old.gate == 0 then 2 else 4)) }
        ensures changes { OnOk result (HasDone self.old.file (reset_changes self.old.gate) (V.disk vault.old) (V.disk vault.new)) }

        ensures file { self.new.file ≡ self.old.file }
        ensures gate { self.new.gate ≡ (if is_ok result then 0 else self.old.gate) }
        ensures memory { IsErrOf result StoreError.Memory → V.disk vault.new ≡ V.disk vault.old }
        ensures reserved { 1 ≤ self.old.room → IsErrOf result StoreError.Memory → ⊥ }
        ensures grows { (self.old.room ≤ self.new.room) × (self.old.buffer ≤ self.new.buffer) }
        ensures room { self.new.room ≤ V.room vault.new self.new.file }
        ensures rooms { RoomsStay (V.room vault.old) (V.room vault.new) }
        ensures cause { HasWriteCause (V.fault_count vault.old) (V.fault_count vault.new) result }
    {
        if self.gate == 0 {
            return cut_and_sync(vault, self.file, 1);
        }
        self.make_ready(vault, 1)?;
        write_and_sync(vault, self.file, 0, &[CLOSED])?;
        cut_and_sync(vault, self.file, 1)?;
        self.gate = 0;
        Ok(())
    }

    /// Makes room for so many bytes of the file in all, where it has not yet made it.
    fn make_ready<V: Vault>(&mut self, vault: &mut V, upto: u64) -> Result<(), StoreError>
        requires { self.old.room ≤ V.room vault.old self.old.file }
        ensures made { OnOk result (upto ≤ self.new.room) }
        ensures file { self.new.file ≡ self.old.file }
        ensures gate { self.new.gate ≡ self.old.gate }
        ensures buffer { self.new.buffer ≡ self.old.buffer }
        ensures same { V.disk vault.new ≡ V.disk vault.old }
        ensures reserved { upto ≤ self.old.room → result ≡ Ok tt }
        ensures grows { self.old.room ≤ self.new.room }
        ensures room { self.new.room ≤ V.room vault.new self.new.file }
        ensures rooms { RoomsStay (V.room vault.old) (V.room vault.new) }
        ensures cause { HasWriteCause (V.fault_count vault.old) (V.fault_count vault.new) result }
    {
        if self.room >= upto {
            return Ok(());
        }
        make_room(vault, *self.buffer.allocator(), self.file, upto)?;
        self.room = upto;
        Ok(())
    }
}

/// How long a file may get whose closed gate stands at a place, with so many records more, each of so many bytes.
fn needed(gate: u64, count: u64, len: u64) -> Option<u64>
    ensures some { IfSome result (λ upto. upto ≡ gate + count * (len + 9) + 1) }
    ensures none { IfNone result (2 ^ 64 ≤ gate + count * (len + 9) + 1) }
{
    let records = if count == 0 {
        0
    } else {
        count.checked_mul(len.checked_add(HEAD_BYTES)?)?
    };
    gate.checked_add(records)?.checked_add(1)
}

/// Puts what stands behind the gate of a record into a buffer: the length, the payload, and a closed gate.
fn spell(buffer: &mut Vec<u8>, payload: &[u8]) -> Result<(), NoMemory>
    ensures spelled { OnOk result (buffer.new.items ≡ behind_gate payload.now) }
    ensures capacity { vec_capacity buffer.old ≤ vec_capacity buffer.new }
    ensures full { OnErr result (vec_capacity buffer.old ≤ length payload.now + 8) }
{
    let mut len = [0; 8];
    BigEndian::write_u64(&mut len, payload.len() as u64);
    buffer.clear();
    buffer.extend_from_slice(&len)?;
    buffer.extend_from_slice(payload)?;
    buffer.push(CLOSED)?;
    Ok(())
}

/// The bytes of a file, and none where it is not there.
fn read_file<V: Vault>(alloc: Global, vault: &mut V, file: u64) -> Result<Vec<u8>, StoreError>
    ensures bytes { TellsFiles (V.disk vault.old) →
        IfOk result (λ bytes. bytes.items ≡ bytes_in (V.disk vault.old).files file) }
    ensures cause { HasReadCause file (λ at. ⊥) (V.fault_count vault.old) (V.fault_count vault.new) result }
    ensures same { V.disk vault.new ≡ V.disk vault.old }
    ensures rooms { RoomsStay (V.room vault.old) (V.room vault.new) }
{
    let len = match vault.len(file) {
        Ok(len) => len.unwrap_or(0),
        Err(Failed) => {
            return Err(StoreError::ReadFault {
                faults: vault.faults(),
            });
        }
    };
    let mut bytes = vec![in alloc; 0; len as usize]?;
    match vault.read_at(file, 0, &mut bytes) {
        Ok(read) => bytes.truncate(read),
        Err(Failed) => {
            return Err(StoreError::ReadFault {
                faults: vault.faults(),
            });
        }
    }
    Ok(bytes)
}
