// A memtable whose entries are numbered as they come.
ghost use Rattle.std.specs.Prelude.{◌≡◌, ◌+◌, ◌<◌, ◌≤◌, IfOk, vec_len};
ghost use Rattle.rk_model.specs.Lists.{Among};
ghost use Rattle.rk_model.specs.declared.op.Entry.{Entry};
ghost use Rattle.rk_mem.specs.Chunks.{NumbersRise};

use rk_key::{read_key, read_suffix};
use rk_mem::Memtable;
use rk_model::{Entry, Op};
use rk_outside::Bytes;
use std::alloc::Global;
use std::marker::Model;
use std::test::Fail;

/// A memtable, and the number that its next entry gets. Those of its entries are below it.
#[derive(Drop)]
pub(super) struct Store {
    memtable: Memtable,
    next: u64,
}

impl Model for Store {
    ghost use Rattle.std.specs.Prelude.{◌<◌};
    ghost use Rattle.rk_model.specs.Lists.{Among};
    ghost use Rattle.rk_model.specs.declared.op.Entry.{Entry};
    ghost use Rattle.rk_mem.specs.Memory.{Memory};

    ghost Value = { Memory };

    ghost view = { λ s. s.memtable };

    ghost invariant = { λ s. (e : Entry) → Among e s.memtable.entries → e.seq < s.next };
}

/// Entries of these operations, numbered from the first number on.
fn numbered(alloc: Global, first: u64, ops: Vec<Op>) -> Result<Vec<Entry>, Fail>
    ensures rise { IfOk result (λ es. NumbersRise es.items) }
    ensures within { IfOk result (λ es. (e : Entry) → Among e es.items → (first ≤ e.seq) × (e.seq < first + vec_len es)) }
{
    let mut entries = Vec::new(alloc);
    for op in ops {
        let seq = first
            .checked_add(entries.len() as u64)
            .ok_or("too many entries")?;
        entries.push(Entry { op, seq })?;
    }
    Ok(entries)
}

impl Store {
    pub(super) fn new(alloc: Global) -> Result<Store, Fail> {
        Ok(Store {
            memtable: Memtable::new(alloc)?,
            next: 1,
        })
    }

    pub(super) fn memtable(&self) -> &Memtable {
        &self.memtable
    }

    /// Adds the operations, as nine bytes.
    pub(super) fn commit(&mut self, alloc: Global, ops: Vec<Op>) -> Result<(), Fail> {
        let entries = numbered(alloc, self.next, ops)?;
        let next = self
            .next
            .checked_add(entries.len() as u64)
            .ok_or("too many entries")?;
        if entries.is_empty() || self.memtable.bytes() > 1_000_000 {
            return Err("no entries, or too many bytes".into());
        }
        self.memtable = self.memtable.grown(&entries, 9)?;
        self.next = next;
        Ok(())
    }

    /// Adds one operation.
    pub(super) fn add(&mut self, alloc: Global, op: Op) -> Result<(), Fail> {
        let mut ops = Vec::new(alloc);
        ops.push(op)?;
        self.commit(alloc, ops)
    }
}

pub(super) fn put(alloc: Global, key: &[u8]) -> Result<Op, Fail> {
    Ok(Op::Put {
        key: read_key(alloc, key)?,
        value: Bytes::from_slice(alloc, b"v")?,
    })
}

/// A range key on a span of its own. Greater numbers have greater spans.
pub(super) fn set(alloc: Global, number: u32) -> Result<Op, Fail> {
    Ok(Op::RangeSet {
        start: read_key(alloc, format!(in alloc; "k{number}")?.as_bytes())?,
        end: read_key(alloc, format!(in alloc; "k{number}z")?.as_bytes())?,
        suffix: read_suffix(alloc, b"@5")?,
        value: Bytes::from_slice(alloc, b"v")?,
    })
}
