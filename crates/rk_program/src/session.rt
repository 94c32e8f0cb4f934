// The state of a run: the store, the batches of the writers, the snapshots, and the open iterators.
ghost use Rattle.std.specs.Prelude.{◌≡◌, ◌<◌, true, false, map, take, length, slice_index_or, option_map, IfOk};
ghost use Rattle.rk_program.specs.Asked.{op_of, operation_of};
ghost use Rattle.rk_script.specs.Naming.{is_called};

use crate::batches::{BatchOp, place_of};
use crate::moves::Move;
use crate::replies;
use rk_batch::Batch;
use rk_iter::Iter;
use rk_key::{Suffix, UserKey};
use rk_memstore::MemStore;
use rk_model::{IterOptions, copy_bound};
use rk_outside::{Bytes, NoMemory, Refused, StoreError};
use rk_script::{Event, Line, Named, find};
use std::alloc::Global;

/// A writer and its batch.
#[derive(Debug, Drop)]
pub struct Writer {
    pub name: Bytes,
    pub batch: Batch,
}

impl Named for Writer {
    ghost called = { λ w. w.name };

    fn name(&self) -> &[u8] {
        self.name.bytes()
    }
}

/// A snapshot: its name, and the number of the last entry that it shows.
#[derive(Debug, Drop)]
pub struct Snapshot {
    pub name: Bytes,
    pub number: u64,
}

impl Named for Snapshot {
    ghost called = { λ s. s.name };

    fn name(&self) -> &[u8] {
        self.name.bytes()
    }
}

/// An open iterator and its name.
#[derive(Debug, Drop)]
pub struct OpenIterator {
    pub name: Bytes,
    pub iter: Iter,
}

impl Named for OpenIterator {
    ghost called = { λ i. i.name };

    fn name(&self) -> &[u8] {
        self.name.bytes()
    }
}

/// What a run keeps: the store, the vault, the writers, the snapshots, the open iterators, and the room for the reply to a line.
#[derive(Debug, Drop)]
pub struct Session<V> {
    pub(crate) alloc: Global,
    pub(crate) mem: MemStore,
    pub(crate) vault: V,
    pub(crate) writers: Vec<Writer>,
    pub(crate) snapshots: Vec<Snapshot>,
    pub(crate) iterators: Vec<OpenIterator>,
    pub(crate) reply: Vec<u8>,
}

/// What is left of a session that was ended.
#[derive(Debug, Drop)]
pub struct Closed<V> {
    /// The vault, as it was handed in.
    pub vault: V,
    /// Whether all was written out.
    pub result: Result<(), StoreError>,
}

impl<V> Session<V> {
    ghost use Rattle.std.specs.Prelude.{◌≡◌, ◌<◌, true, false, IsTrue, IfOk, IfErr, IfSome, OnOk, OnErr, Ok, None, length};
    ghost use Rattle.rk_outside.specs.declared.error.StoreError.TheVariants as store_error;
    ghost use Rattle.rk_script.specs.Naming.{is_called};
    ghost use Rattle.rk_script.specs.Script.{is_accepted};
    ghost use Rattle.rk_script.specs.declared.line.Event.TheVariants.{Snap, Release, Close, Shape};
    ghost use Rattle.rk_machine.specs.declared.limits.TheConstants.{MOST_SNAPSHOTS};
    ghost use Rattle.rk_program.specs.Asked.{op_of, move_of, operation_of};
    ghost use Rattle.rk_program.specs.Transcript.{SessionState, begin, DoesOp, DoesCommit, DoesOpening, DoesMove, Does, IsTime};
    ghost use Rattle.rk_program.specs.Standing.{StandsFor, Did, DidSo, names_in, numbers, IsLive};

    /// Opens the store over a vault. Nothing was committed, and no name is in use.
    ///
    /// # Errors
    ///
    /// `Memory` alone. The vault is handed back.
    pub fn begin(alloc: Global, vault: V) -> Result<Session<V>, Refused<V>>
        ensures stands { IfOk result (λ session. StandsFor session begin) }
        ensures vault { IfOk result (λ session. session.vault ≡ vault) }
        ensures memory { IfErr result (λ refused. refused.error ≡ store_error.Memory) }
        ensures back { IfErr result (λ refused. refused.value ≡ vault) }
    {
        match MemStore::new(alloc) {
            Ok(mem) => Ok(Session {
                alloc,
                mem,
                vault,
                writers: Vec::new(alloc),
                snapshots: Vec::new(alloc),
                iterators: Vec::new(alloc),
                reply: Vec::new(alloc),
            }),
            Err(NoMemory) => Err(Refused {
                error: StoreError::Memory,
                value: vault,
            }),
        }
    }

    /// Does what a line asks for, and adds its replies to `out`, with their line ends.
    ///
    /// # Errors
    ///
    /// `Memory` alone. Then `out` is as before.
    pub fn line(&mut self, line: &Line, out: &mut Vec<u8>) -> Result<(), StoreError>
        requires accepted { IsTrue (is_accepted (names_in self.old) line.now.event) }
        ensures did { (s : SessionState) → StandsFor self.old s → OnOk result (Did s line.now.event out.old.items out.new.items self.new) }
        ensures memory { IfErr result (λ error. error ≡ store_error.Memory) }
        ensures kept { OnErr result (out.new.items ≡ out.old.items) }
        ensures vault { self.new.vault ≡ self.old.vault }
    {
        self.reply.clear();
        match self.event(&line.event) {
            Ok(()) => match out.extend_from_slice(&self.reply) {
                Ok(()) => Ok(()),
                Err(_) => Err(StoreError::Memory),
            },
            Err(NoMemory) => Err(StoreError::Memory),
        }
    }

    /// Closes the store, and hands the vault back.
    pub fn end(self) -> Closed<V>
        ensures vault { result.vault ≡ self.vault }
        ensures done { result.result ≡ Ok tt }
    {
        Closed {
            vault: self.vault,
            result: Ok(()),
        }
    }

    // Does what a line asks for. Its reply is added to that of this session.
    fn event(&mut self, event: &Event) -> Result<(), NoMemory>
        requires accepted { IsTrue (is_accepted (names_in self.old) event.now) }
        ensures did { (s : SessionState) → StandsFor self.old s → OnOk result (Did s event.now self.old.reply.items self.new.reply.items self.new) }
        ensures vault { self.new.vault ≡ self.old.vault }
    {
        match operation(event) {
            Some((writer, op)) => self.give(writer, op),
            None => self.other(event),
        }
    }

    // Does what a line asks for that is not on a batch alone.
    fn other(&mut self, event: &Event) -> Result<(), NoMemory>
        requires other { operation_of event.now ≡ None }
        requires accepted { IsTrue (is_accepted (names_in self.old) event.now) }
        ensures did { (s : SessionState) → StandsFor self.old s → OnOk result (Did s event.now self.old.reply.items self.new.reply.items self.new) }
        ensures vault { self.new.vault ≡ self.old.vault }
    {
        match event {
            Event::Commit { writer } => self.commit(writer),
            Event::Snap { name } => self.snap(name),
            Event::Release { name } => self.release(name),
            Event::Shape => self.shape(),
            Event::Iter {
                name,
                at,
                lower,
                upper,
                mask,
            } => self.open(name, at, &options(lower, upper, mask)?),
            Event::First { iter } => self.step(iter, Move::First),
            Event::Last { iter } => self.step(iter, Move::Last),
            Event::Next { iter } => self.step(iter, Move::Next),
            Event::Prev { iter } => self.step(iter, Move::Prev),
            Event::SeekGe { iter, key } => self.step(iter, Move::SeekGe(key)),
            Event::SeekLt { iter, key } => self.step(iter, Move::SeekLt(key)),
            Event::Close { iter } => self.close(iter),
            _ => unreachable!(),
        }
    }

    // Gives a writer's batch an operation. A refusal is told.
    fn give(&mut self, writer: &Bytes, op: BatchOp<'_>) -> Result<(), NoMemory>
        ensures did { (s : SessionState) → StandsFor self.old s → OnOk result (DidSo (DoesOp s writer.now (op_of op.entry)) self.old.reply.items self.new.reply.items self.new) }
        ensures vault { self.new.vault ≡ self.old.vault }
    {
        let i = place_of(self.alloc, &mut self.writers, writer)?;
        match op.add_to(&mut self.writers[i].batch) {
            Ok(()) => Ok(()),
            Err(error) => replies::refused(self.alloc, &mut self.reply, writer.bytes(), error),
        }
    }

    // Commits a writer's batch. A refusal is told, but for want of memory, and leaves the batch.
    fn commit(&mut self, writer: &Bytes) -> Result<(), NoMemory>
        ensures did { (s : SessionState) → StandsFor self.old s → OnOk result (DidSo (DoesCommit s writer.now) self.old.reply.items self.new.reply.items self.new) }
        ensures vault { self.new.vault ≡ self.old.vault }
    {
        let i = place_of(self.alloc, &mut self.writers, writer)?;
        match self.mem.commit(&self.writers[i].batch) {
            Ok(numbers) => {
                self.writers[i].batch.clear();
                replies::committed(self.alloc, &mut self.reply, writer.bytes(), numbers)
            }
            Err(error) => replies::uncommitted(self.alloc, &mut self.reply, writer.bytes(), error),
        }
    }

    // Takes a snapshot of what is committed now.
    fn snap(&mut self, name: &Bytes) -> Result<(), NoMemory>
        requires room { length self.old.snapshots.items < MOST_SNAPSHOTS }
        ensures did { (s : SessionState) → StandsFor self.old s → OnOk result (DidSo (Does s (Snap name.now)) self.old.reply.items self.new.reply.items self.new) }
        ensures vault { self.new.vault ≡ self.old.vault }
    {
        let Ok(number) = self.mem.snap() else {
            return Err(NoMemory);
        };
        replies::snapped(self.alloc, &mut self.reply, name.bytes(), number)?;
        let name = name.copy()?;
        self.snapshots.push(Snapshot { name, number })?;
        Ok(())
    }

    // Releases a snapshot.
    fn release(&mut self, name: &Bytes) -> Result<(), NoMemory>
        requires live { IsLive name.now (numbers self.old.snapshots.items) }
        ensures did { (s : SessionState) → StandsFor self.old s → OnOk result (DidSo (Does s (Release name.now)) self.old.reply.items self.new.reply.items self.new) }
        ensures vault { self.new.vault ≡ self.old.vault }
    {
        let i = live_place(&self.snapshots, name);
        let snapshot = self.snapshots.remove(i);
        match self.mem.release(snapshot.number) {
            Ok(()) => replies::released(&mut self.reply, name.bytes()),
            Err(_) => Err(NoMemory),
        }
    }

    // Opens an iterator over what a snapshot shows, or over what is committed now.
    fn open(
        &mut self,
        name: &Bytes,
        at: &Option<Bytes>,
        options: &IterOptions,
    ) -> Result<(), NoMemory>
        requires free { is_called name.now (names_in self.old).iterators ≡ false }
        requires live { IfSome at.now (λ snapshot. IsLive snapshot (numbers self.old.snapshots.items)) }
        ensures did { (s : SessionState) → StandsFor self.old s → OnOk result (DidSo (DoesOpening s name.now at.now options.now) self.old.reply.items self.new.reply.items self.new) }
        ensures vault { self.new.vault ≡ self.old.vault }
    {
        let number = self.time(at);
        let Ok(pins) = self.mem.pin(number) else {
            return Err(NoMemory);
        };
        let number = pins.number;
        let iter = Iter::open(self.alloc, pins, options)?;
        replies::opened(self.alloc, &mut self.reply, name.bytes(), number)?;
        let name = name.copy()?;
        self.iterators.push(OpenIterator { name, iter })?;
        Ok(())
    }

    // The number of a snapshot, where one is named.
    fn time(&self, at: &Option<Bytes>) -> Option<u64>
        requires live { IfSome at.now (λ snapshot. IsLive snapshot (numbers self.now.snapshots.items)) }
        ensures { (s : SessionState) → StandsFor self.now s → IsTime s at.now result }
    {
        let snapshot = at.as_ref()?;
        let i = live_place(&self.snapshots, snapshot);
        Some(self.snapshots[i].number)
    }

    // Moves an iterator.
    fn step(&mut self, iter: &Bytes, step: Move<'_>) -> Result<(), NoMemory>
        requires live { is_called iter.now (names_in self.old).iterators ≡ true }
        ensures did { (s : SessionState) → StandsFor self.old s → OnOk result (DidSo (DoesMove s iter.now (move_of step.entry)) self.old.reply.items self.new.reply.items self.new) }
        ensures vault { self.new.vault ≡ self.old.vault }
    {
        let i = live_place(&self.iterators, iter);
        match step.make(&mut self.iterators[i].iter) {
            Ok(_) => replies::stands(&mut self.reply, iter.bytes(), &self.iterators[i].iter),
            Err(_) => Err(NoMemory),
        }
    }

    // Closes an iterator.
    fn close(&mut self, iter: &Bytes) -> Result<(), NoMemory>
        requires live { is_called iter.now (names_in self.old).iterators ≡ true }
        ensures did { (s : SessionState) → StandsFor self.old s → OnOk result (DidSo (Does s (Close iter.now)) self.old.reply.items self.new.reply.items self.new) }
        ensures vault { self.new.vault ≡ self.old.vault }
    {
        let i = live_place(&self.iterators, iter);
        let _ = self.iterators.remove(i);
        replies::closed(&mut self.reply, iter.bytes())
    }

    // Tells the sizes of the store.
    fn shape(&mut self) -> Result<(), NoMemory>
        ensures did { (s : SessionState) → StandsFor self.old s → OnOk result (DidSo (Does s Shape) self.old.reply.items self.new.reply.items self.new) }
        ensures vault { self.new.vault ≡ self.old.vault }
    {
        replies::shape(self.alloc, &mut self.reply, self.mem.shape())
    }
}

// The writer and the operation of a line on a batch.
fn operation(event: &Event) -> Option<(&Bytes, BatchOp<'_>)>
    ensures { option_map (λ asked. (asked.0.now, op_of asked.1)) result ≡ operation_of event.now }
{
    match event {
        Event::Put { writer, key, value } => {
            let (key, value) = (key.bytes(), value.bytes());
            Some((writer, BatchOp::Put { key, value }))
        }
        Event::Del { writer, key } => Some((writer, BatchOp::Del { key: key.bytes() })),
        Event::RangeSet {
            writer,
            start,
            end,
            suffix,
            value,
        } => {
            let (start, end) = (start.bytes(), end.bytes());
            let (suffix, value) = (suffix.bytes(), value.bytes());
            Some((
                writer,
                BatchOp::RangeSet {
                    start,
                    end,
                    suffix,
                    value,
                },
            ))
        }
        Event::RangeUnset {
            writer,
            start,
            end,
            suffix,
        } => {
            let (start, end, suffix) = (start.bytes(), end.bytes(), suffix.bytes());
            Some((writer, BatchOp::RangeUnset { start, end, suffix }))
        }
        Event::RangeDel { writer, start, end } => {
            let (start, end) = (start.bytes(), end.bytes());
            Some((writer, BatchOp::RangeDel { start, end }))
        }
        _ => None,
    }
}

// The options of an iterator, as a line has them.
fn options(
    lower: &Option<UserKey>,
    upper: &Option<UserKey>,
    mask: &Option<Suffix>,
) -> Result<IterOptions, NoMemory>
    ensures { IfOk result (λ o. o ≡ record { lower = lower.now; upper = upper.now; mask = mask.now }) }
{
    Ok(IterOptions {
        lower: copy_bound(lower)?,
        upper: copy_bound(upper)?,
        mask: mask.as_ref().map(|suffix| suffix.copy()),
    })
}

// The place of the first thing of a name that is live.
fn live_place<T: Named>(things: &[T], name: &Bytes) -> usize
    requires { is_called name.now (map T.called things.now) ≡ true }
    ensures within { result < length things.now }
    ensures first { is_called name.now (map T.called (take result things.now)) ≡ false }
    ensures here { (d : T) → T.called (slice_index_or things.now result d) ≡ name.now }
{
    match find(things, name.bytes()) {
        Some(i) => i,
        None => unreachable!(),
    }
}
