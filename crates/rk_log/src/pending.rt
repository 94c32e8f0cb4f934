// Groups that are being filled.
ghost use Rattle.std.specs.Prelude.{◌≡◌, ℕ, ◌+◌, ◌<◌, ◌≤◌, ◌^◌, [], ◌∷◌, ◌++◌, List, length, IfOk, OnOk, OnErr, if◌then◌else◌, ◌==◌};
ghost use Rattle.byteorder.specs.Endian.{big_bytes};
ghost use Rattle.rk_batch.specs.Grammar.{IsBatch};
ghost use Rattle.rk_model.specs.declared.op.Op.{Op};
ghost use Rattle.rk_log.specs.Groups.{IsGroupOf, framed};
ghost use Rattle.rk_log.specs.Pending.{Holds};

use byteorder::{BigEndian, ByteOrder};
use rk_batch::Batch;
use rk_outside::NoMemory;
use std::alloc::Global;
use std::marker::Model;

/// Batches that are to be written together. Contracts see the number of their first operation, their count, the sum of their
/// lengths, and their bytes.
#[derive(Debug, Drop)]
pub struct Pending {
    first: u64,
    count: u32,
    size: u64,
    bytes: Vec<u8>,
}

impl Model for Pending {
    ghost use Rattle.std.specs.Prelude.{◌<◌, ◌^◌};
    ghost use Rattle.rk_log.specs.Pending.{PendingSeen};

    ghost Value = { PendingSeen };

    ghost view = { λ p. record { first = p.first; count = p.count; size = p.size; bytes = p.bytes.items } };

    ghost invariant = { λ p. (p.first < 2 ^ 64) × (p.count < 2 ^ 32) };
}

impl Pending {
    /// No batch. It takes no memory.
    pub fn new(alloc: Global) -> Pending
        ensures { Holds result [] }
    {
        Pending {
            first: 0,
            count: 0,
            size: 0,
            bytes: Vec::new(alloc),
        }
    }

    /// Adds a batch, whose first operation has this number. Where it is the first batch, the group begins with that number.
    ///
    /// # Errors
    ///
    /// `NoMemory` where its bytes find none. All is as before then.
    pub fn push(&mut self, first: u64, batch: &Batch) -> Result<(), NoMemory>
        requires some { 1 ≤ length batch.now }
        requires few { self.old.count + 1 < 2 ^ 32 }
        requires short { self.old.size + 1048576 < 2 ^ 64 }
        ensures added { (batches : List (List Op)) → Holds self.old batches → OnOk result (Holds self.new (batches ++ batch.now ∷ [])) }
        ensures begins { OnOk result (self.new.first ≡ (if self.old.count == 0 then first else self.old.first)) }
        ensures same { OnErr result (self.new ≡ self.old) }
    {
        let bytes = in_frame(*self.bytes.allocator(), batch)?;
        self.bytes.extend_from_slice(&bytes)?;
        self.first = self.first_with(first);
        self.count += 1;
        self.size += batch.size();
        Ok(())
    }

    /// The sum of the lengths of the batches. It takes no memory.
    pub fn size(&self) -> u64
        ensures { result ≡ self.now.size }
    {
        self.size
    }

    /// How many batches there are. It takes no memory.
    pub fn count(&self) -> u32
        ensures { result ≡ self.now.count }
    {
        self.count
    }

    /// The payload of the group, where there is a batch.
    ///
    /// # Errors
    ///
    /// `NoMemory` where the payload finds none.
    pub fn payload(&self, alloc: Global) -> Result<Vec<u8>, NoMemory>
        requires { 1 ≤ self.now.count }
        ensures { (batches : List (List Op)) → Holds self.now batches →
            IfOk result (λ payload. IsGroupOf payload.items (record { first = self.now.first; batches = batches })) }
    {
        let mut payload = Vec::new(alloc);
        push_number(&mut payload, self.first)?;
        push_length(&mut payload, self.count)?;
        payload.extend_from_slice(&self.bytes)?;
        Ok(payload)
    }

    /// The payload of the group with one batch more, which is not added. Where it is the first batch, the group begins with the
    /// number of its first operation.
    ///
    /// # Errors
    ///
    /// `NoMemory` where the payload finds none.
    pub fn payload_with(
        &self,
        alloc: Global,
        first: u64,
        batch: &Batch,
    ) -> Result<Vec<u8>, NoMemory>
        requires some { 1 ≤ length batch.now }
        requires few { self.now.count + 1 < 2 ^ 32 }
        ensures { (batches : List (List Op)) → Holds self.now batches →
            IfOk result (λ payload. IsGroupOf payload.items (record {
              first = if self.now.count == 0 then first else self.now.first;
              batches = batches ++ batch.now ∷ [];
            })) }
    {
        let frame = in_frame(alloc, batch)?;
        let mut payload = Vec::new(alloc);
        push_number(&mut payload, self.first_with(first))?;
        push_length(&mut payload, self.count + 1)?;
        payload.extend_from_slice(&self.bytes)?;
        payload.extend_from_slice(&frame)?;
        Ok(payload)
    }

    // What a group begins with, where one batch more begins with this number.
    fn first_with(&self, first: u64) -> u64
        ensures { result ≡ (if self.now.count == 0 then first else self.now.first) }
    {
        if self.count == 0 { first } else { self.first }
    }

    /// Leaves no batch, and keeps the memory.
    pub fn clear(&mut self)
        ensures { Holds self.new [] }
    {
        self.count = 0;
        self.size = 0;
        self.bytes.clear();
    }
}

// A batch behind its length.
fn in_frame(alloc: Global, batch: &Batch) -> Result<Vec<u8>, NoMemory>
    requires { 1 ≤ length batch.now }
    ensures framed { IfOk result (λ bytes. bytes.items ≡ framed batch.now) }
    ensures is_batch { OnOk result (IsBatch batch.now) }
{
    let bytes = batch.encode(alloc)?;
    let mut frame = Vec::new(alloc);
    push_length(&mut frame, bytes.len() as u32)?;
    frame.extend_from_slice(&bytes)?;
    Ok(frame)
}

// Writes a number of eight bytes at the end, the highest byte first.
fn push_number(out: &mut Vec<u8>, number: u64) -> Result<(), NoMemory>
    ensures { OnOk result (out.new.items ≡ out.old.items ++ big_bytes 8 number) }
{
    let mut bytes = [0; 8];
    BigEndian::write_u64(&mut bytes, number);
    out.extend_from_slice(&bytes)?;
    Ok(())
}

// Writes a length or a count of four bytes at the end, the highest byte first.
fn push_length(out: &mut Vec<u8>, length: u32) -> Result<(), NoMemory>
    ensures { OnOk result (out.new.items ≡ out.old.items ++ big_bytes 4 length) }
{
    let mut bytes = [0; 4];
    BigEndian::write_u32(&mut bytes, length);
    out.extend_from_slice(&bytes)?;
    Ok(())
}
