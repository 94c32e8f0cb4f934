// Memtables: lists of chunks that only grow.
ghost use Rattle.std.specs.Prelude.{◌≡◌, ◌+◌, ◌<◌, ◌^◌, map, length, IfOk};
ghost use Rattle.std.specs.Arc.{arc_value};
ghost use Rattle.rk_mem.specs.Chunks.{NumbersRise, AreNewer};
ghost use Rattle.rk_mem.specs.Memory.{nothing, IsGrown, AreChunksOf};

use crate::Chunk;
use crate::merge::copied;
use crate::tower::piled;
use rk_model::Entry;
use rk_outside::NoMemory;
use std::alloc::Global;
use std::marker::Model;
use std::sync::Arc;

/// Entries, and the size of what they were made of. Contracts see the list of the entries, and the size.
#[derive(Debug, Drop)]
pub struct Memtable {
    chunks: Vec<Arc<Chunk>>,
    bytes: u64,
}

impl Model for Memtable {
    ghost use Rattle.std.specs.Prelude.{map};
    ghost use Rattle.std.specs.Arc.{arc_value};
    ghost use Rattle.rk_mem.specs.Memory.{Memory, entries_of};
    ghost use Rattle.rk_mem.specs.Towers.{IsTower};

    ghost Value = { Memory };

    ghost view = { λ m. record { entries = entries_of (map arc_value m.chunks.items); bytes = m.bytes } };

    ghost invariant = { λ m. IsTower (map arc_value m.chunks.items) };
}

fn share(alloc: Global, chunks: &[Arc<Chunk>]) -> Result<Vec<Arc<Chunk>>, NoMemory>
    ensures { IfOk result (λ v. map arc_value v.items ≡ map arc_value chunks.now) }
{
    let mut shared = Vec::new(alloc);
    for chunk in chunks {
        shared.push(Arc::try_clone(chunk)?)?;
    }
    Ok(shared)
}

impl Memtable {
    /// A memtable without entries.
    ///
    /// # Errors
    ///
    /// None: `NoMemory` is there for a body that takes some.
    pub fn new(alloc: Global) -> Result<Memtable, NoMemory>
        ensures { IfOk result (λ m. m ≡ nothing) }
    {
        Ok(Memtable {
            chunks: Vec::new(alloc),
            bytes: 0,
        })
    }

    /// A memtable with copies of these newer entries too, and with so many bytes more. All else is as in
    /// [`Memtable::grown_with`].
    ///
    /// # Errors
    ///
    /// `NoMemory` where a copy, a chunk or the list of chunks finds no memory.
    pub fn grown(&self, entries: &[Entry], bytes: u64) -> Result<Memtable, NoMemory>
        requires some { 0 < length entries.now }
        requires rise { NumbersRise entries.now }
        requires newer { AreNewer self.now.entries entries.now }
        requires fits { self.now.bytes + bytes < 2 ^ 64 }
        ensures { IfOk result (λ m. IsGrown self.now entries.now bytes m) }
    {
        let entries = copied(*self.chunks.allocator(), entries)?;
        self.grown_with(entries, bytes)
    }

    /// A memtable with these newer entries too, and with so many bytes more. They are moved into a chunk of their
    /// own. While the next older chunk has fewer than twice as many entries, the two become one: it shares the
    /// points of both, and has copies of their range entries. All other chunks are shared with this memtable, which
    /// stays as it was, as do the chunks that were pinned.
    ///
    /// # Errors
    ///
    /// `NoMemory` where a chunk or the list of chunks finds no memory. The entries are gone then.
    pub fn grown_with(&self, entries: Vec<Entry>, bytes: u64) -> Result<Memtable, NoMemory>
        requires some { 0 < length entries.items }
        requires rise { NumbersRise entries.items }
        requires newer { AreNewer self.now.entries entries.items }
        requires fits { self.now.bytes + bytes < 2 ^ 64 }
        ensures { IfOk result (λ m. IsGrown self.now entries.items bytes m) }
    {
        let alloc = *self.chunks.allocator();
        let newest = Chunk::new(alloc, entries)?;
        let chunks = piled(alloc, share(alloc, &self.chunks)?, newest)?;
        Ok(Memtable {
            chunks,
            bytes: self.bytes + bytes,
        })
    }

    /// The chunks, the newest last. They stay as they are whatever becomes of the memtable.
    ///
    /// # Errors
    ///
    /// `NoMemory` where the list finds no memory.
    pub fn pin(&self) -> Result<Vec<Arc<Chunk>>, NoMemory>
        ensures { IfOk result (λ v. AreChunksOf self.now.entries (map arc_value v.items)) }
    {
        share(*self.chunks.allocator(), &self.chunks)
    }

    /// The size. It takes no memory.
    pub fn bytes(&self) -> u64
        ensures { result ≡ self.now.bytes }
    {
        self.bytes
    }
}

/// Chunks that are held, and the number up to which they are to be read. Contracts see each chunk as the list
/// of its entries.
#[derive(Debug, Drop)]
pub struct MemPins {
    pub number: u64,
    pub chunks: Vec<Arc<Chunk>>,
}

impl Model for MemPins {
    ghost use Rattle.std.specs.Prelude.{map};
    ghost use Rattle.std.specs.Arc.{arc_value};
    ghost use Rattle.rk_mem.specs.Memory.{Pinned};

    ghost Value = { Pinned };

    ghost view = { λ p. record { number = p.number; chunks = map arc_value p.chunks.items } };
}
