// The store in memory.
ghost use Rattle.std.specs.Prelude.{◌≡◌, ◌+◌, ◌==◌, ◌≤◌, ◌⊎◌, true, false, [], length, map, position, Some, None, IfOk, OnOk, OnErr, MatchResult};
ghost use Rattle.std.specs.Arc.{arc_value};
ghost use Rattle.std.specs.Option.{option_map_or};
ghost use Rattle.rk_mem.specs.Memory.{nothing};
ghost use Rattle.rk_merge_laws.specs.Chunks.{all_of};
ghost use Rattle.rk_outside.specs.declared.error.StoreError.TheVariants as store_error;
ghost use Rattle.rk_machine.specs.State.{State, shape_of};
ghost use Rattle.rk_machine.specs.Events.{Commit, Snap, Release, Committed, Number, Released, Refused as refused};
ghost use Rattle.rk_machine.specs.Sizes.{batch_size};
ghost use Rattle.rk_machine.specs.Commits.{commit_due};
ghost use Rattle.rk_machine.specs.Iterators.{open_due};
ghost use Rattle.rk_machine.specs.declared.limits.TheConstants.{MOST_NUMBER};
ghost use Rattle.rk_memstore.specs.Standing.{IsMemStore, StandsInMemory, parts};
ghost use Rattle.rk_memstore.specs.Joining.{has_room, HasJoined, IsPrepared};
ghost use Rattle.rk_memstore.specs.Answers.{reply_of, IsStep, StepsFrom, Pins};

use crate::answers::{Numbers, or_memory};
use crate::numbering::numbered;
use rk_batch::Batch;
use rk_machine::{MOST_MEMTABLE_BYTES, MOST_NUMBER, MOST_SNAPSHOTS, Shape};
use rk_mem::{Chunk, MemPins, Memtable};
use rk_outside::{NoMemory, StoreError};
use std::alloc::Global;
use std::marker::Model;
use std::mem;
use std::sync::Arc;

/// The memtables of a store, the last number, and the live ones. Contracts see them.
#[derive(Debug, Drop)]
pub struct MemStore {
    alloc: Global,
    active: Memtable,
    frozen: Memtable,
    last: u64,
    live: Vec<u64>,
}

impl Model for MemStore {
    ghost use Rattle.rk_memstore.specs.Standing.{MemSeen, IsMemStore};

    ghost Value = { MemSeen };

    ghost view = { λ c. record { active = c.active; frozen = c.frozen; last = c.last; live = c.live.items } };

    ghost invariant = { λ c. IsMemStore (record { active = c.active; frozen = c.frozen; last = c.last; live = c.live.items }) };
}

/// A batch that was made ready to join the memtables. Contracts see the active memtable with its operations, and whether the one
/// before it is frozen.
#[derive(Debug, Drop)]
pub struct Prepared {
    active: Memtable,
    freezes: bool,
}

impl Model for Prepared {
    ghost use Rattle.rk_memstore.specs.Joining.{PreparedSeen};

    ghost Value = { PreparedSeen };

    ghost view = { λ p. record { active = p.active; freezes = p.freezes } };
}

impl Prepared {
    /// Whether the active memtable is frozen, since the batch has no room in it. It takes no memory.
    pub fn freezes(&self) -> bool
        ensures { result ≡ self.now.freezes }
    {
        self.freezes
    }
}

impl MemStore {
    /// A new store. No snapshot is live.
    ///
    /// # Errors
    ///
    /// `NoMemory` where its memtables find none.
    pub fn new(alloc: Global) -> Result<MemStore, NoMemory>
        ensures { IfOk result (λ store. store ≡ record { active = nothing; frozen = nothing; last = 0; live = [] }) }
    {
        Ok(MemStore {
            alloc,
            active: Memtable::new(alloc)?,
            frozen: Memtable::new(alloc)?,
            last: 0,
            live: Vec::new(alloc),
        })
    }

    /// A store of these memtables and this last number. No snapshot is live.
    pub fn restored(alloc: Global, frozen: Memtable, active: Memtable, last: u64) -> MemStore
        requires { IsMemStore (record { active = active; frozen = frozen; last = last; live = [] }) }
        ensures { result ≡ record { active = active; frozen = frozen; last = last; live = [] } }
    {
        MemStore {
            alloc,
            active,
            frozen,
            last,
            live: Vec::new(alloc),
        }
    }

    /// Commits the operations of a batch, with the numbers behind the last one. Where the active memtable has no room for
    /// them and none is frozen, it is frozen, and they come into a new one.
    ///
    /// # Errors
    ///
    /// The first that holds: `EmptyBatch` where there is no operation, `SequenceEnd` where the numbers would pass the
    /// greatest, `MemFull` where neither memtable has room, `Memory`. The store is as before then.
    pub fn commit(&mut self, batch: &Batch) -> Result<Numbers, StoreError>
        ensures step { (m : State) → m.halted ≡ None → StandsInMemory self.old m →
            StepsFrom m self.new (Commit batch.now false) (reply_of (λ n. Committed n.first n.last) result) }
        ensures stays { OnErr result (self.new ≡ self.old) }
    {
        self.check(batch)?;
        let prepared = or_memory(self.prepare(batch))?;
        Ok(self.install(prepared, batch))
    }

    /// Makes the operations of a batch ready to join the memtables, with the numbers behind the last one. It takes all the memory
    /// that [`install`](MemStore::install) needs.
    ///
    /// # Errors
    ///
    /// `NoMemory` where they find none.
    pub fn prepare(&self, batch: &Batch) -> Result<Prepared, NoMemory>
        requires some { 1 ≤ length batch.now }
        requires fits { self.now.last + length batch.now ≤ MOST_NUMBER }
        ensures { IfOk result (IsPrepared self.now batch.now) }
    {
        let size = batch.size();
        let entries = numbered(self.alloc, batch.ops(), self.last)?;
        if self.has_room(size) {
            Ok(Prepared {
                active: self.active.grown_with(entries, size)?,
                freezes: false,
            })
        } else {
            Ok(Prepared {
                active: Memtable::new(self.alloc)?.grown_with(entries, size)?,
                freezes: true,
            })
        }
    }

    /// Lets a batch join the memtables that was made ready for it. It takes no memory.
    pub fn install(&mut self, prepared: Prepared, batch: &Batch) -> Numbers
        requires prepared { IsPrepared self.old batch.now prepared }
        requires fits { self.old.last + length batch.now ≤ MOST_NUMBER }
        requires room { self.old.frozen.bytes ≡ 0 ⊎ has_room self.old (batch_size batch.now) ≡ true }
        ensures joined { HasJoined self.old self.new batch.now }
        ensures numbers { (result.first ≡ self.old.last + 1) × (result.last ≡ self.old.last + length batch.now) }
    {
        if prepared.freezes {
            self.frozen = mem::replace(&mut self.active, prepared.active);
        } else {
            self.active = prepared.active;
        }
        let first = self.last + 1;
        self.last += batch.count();
        Numbers {
            first,
            last: self.last,
        }
    }

    /// Why a batch may not be committed, whatever memory there is.
    ///
    /// # Errors
    ///
    /// The first that holds: `EmptyBatch` where there is no operation, `SequenceEnd` where the numbers would pass the
    /// greatest, `MemFull` where neither memtable has room.
    pub fn check(&self, batch: &Batch) -> Result<(), StoreError>
        ensures due { (m : State) → m.halted ≡ None → StandsInMemory self.now m →
            MatchResult result (λ _. commit_due m batch.now ≡ None) (λ e. commit_due m batch.now ≡ Some (refused e)) }
        ensures some { OnOk result (1 ≤ length batch.now) }
        ensures fits { OnOk result (self.now.last + length batch.now ≤ MOST_NUMBER) }
        ensures room { OnOk result (self.now.frozen.bytes ≡ 0 ⊎ has_room self.now (batch_size batch.now) ≡ true) }
        ensures keeps { OnOk result (IsMemStore self.now) }
    {
        let (count, size) = (batch.count(), batch.size());
        if count == 0 {
            return Err(StoreError::EmptyBatch);
        }
        if count > MOST_NUMBER - self.last {
            return Err(StoreError::SequenceEnd {
                last: self.last,
                ops: count,
            });
        }
        if self.frozen.bytes() > 0 && !self.has_room(size) {
            return Err(StoreError::MemFull {
                active: self.active.bytes(),
                batch: size,
            });
        }
        Ok(())
    }

    // Whether the active memtable has room for so many bytes more.
    fn has_room(&self, size: u64) -> bool
        ensures { result ≡ has_room self.now size }
    {
        match self.active.bytes().checked_add(size) {
            Some(bytes) => bytes <= MOST_MEMTABLE_BYTES,
            None => false,
        }
    }

    /// Makes the last number live once more, and answers it.
    ///
    /// # Errors
    ///
    /// `TooManySnaps` where as many snapshots are live as may be, and else `Memory`. The store is as before then.
    pub fn snap(&mut self) -> Result<u64, StoreError>
        ensures step { IsStep self.old self.new Snap (reply_of Number result) }
        ensures stays { OnErr result (self.new ≡ self.old) }
    {
        if self.live.len() >= MOST_SNAPSHOTS {
            return Err(StoreError::TooManySnaps {
                live: self.live.len() as u64,
            });
        }
        match self.live.push(self.last) {
            Ok(()) => Ok(self.last),
            Err(_) => Err(StoreError::Memory),
        }
    }

    /// Takes one of the numbers that are live away. It takes no memory.
    ///
    /// # Errors
    ///
    /// `NoSnap` where the number is not live. The store is as before then.
    pub fn release(&mut self, number: u64) -> Result<(), StoreError>
        ensures step { IsStep self.old self.new (Release number) (reply_of (λ _. Released) result) }
        ensures stays { OnErr result (self.new ≡ self.old) }
    {
        match place_of(&self.live, number) {
            Some(i) => {
                let _ = self.live.remove(i);
                Ok(())
            }
            None => Err(StoreError::NoSnap { number }),
        }
    }

    /// Pins what the store shows at the last number, or at a live one.
    ///
    /// # Errors
    ///
    /// `NoSnap` where the number is not live, and else `Memory`.
    pub fn pin(&mut self, at: Option<u64>) -> Result<MemPins, StoreError>
        ensures same { self.new ≡ self.old }
        ensures pins { (m : State) → StandsInMemory self.old m → Pins m at result }
    {
        let number = self.number(at)?;
        let chunks = or_memory(self.chunks())?;
        Ok(MemPins { number, chunks })
    }

    // The number to pin.
    fn number(&self, at: Option<u64>) -> Result<u64, StoreError>
        ensures number { IfOk result (λ n. n ≡ option_map_or (λ n. n) at self.now.last) }
        ensures due { (m : State) → StandsInMemory self.now m → MatchResult result (λ _. open_due m at ≡ None) (λ e. open_due m at ≡ Some (refused e)) }
    {
        let Some(number) = at else {
            return Ok(self.last);
        };
        match place_of(&self.live, number) {
            Some(_) => Ok(number),
            None => Err(StoreError::NoSnap { number }),
        }
    }

    // The chunks of both memtables, the newest last.
    fn chunks(&self) -> Result<Vec<Arc<Chunk>>, NoMemory>
        ensures all { IfOk result (λ chunks. all_of (map arc_value chunks.items) ≡ all_of (parts self.now)) }
        ensures keeps { IsMemStore self.now }
    {
        let mut chunks = self.frozen.pin()?;
        for chunk in self.active.pin()? {
            chunks.push(chunk)?;
        }
        Ok(chunks)
    }

    /// The last number. It takes no memory.
    pub fn last(&self) -> u64
        ensures { result ≡ self.now.last }
    {
        self.last
    }

    /// The numbers that are live, each once for each of its snapshots. It takes no memory.
    pub fn live(&self) -> &[u64]
        ensures { result.now ≡ self.now.live }
    {
        &self.live
    }

    /// The sizes. It takes no memory.
    pub fn shape(&self) -> Shape
        ensures { (m : State) → StandsInMemory self.now m → result ≡ shape_of m }
    {
        Shape {
            active: self.active.bytes(),
            frozen: self.frozen.bytes(),
            tables: [0; 4],
            bytes: [0; 4],
        }
    }
}

// The first place of a number.
fn place_of(numbers: &[u64], number: u64) -> Option<usize>
    ensures { result ≡ position (λ n. n == number) numbers.now }
{
    numbers.iter().position(|n| *n == number)
}
