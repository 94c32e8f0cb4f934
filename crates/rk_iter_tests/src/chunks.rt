// Chunks, each of one commit.
ghost use Rattle.rk_mem.specs.Chunks.{NumbersRise};

use rk_mem::{Chunk, MemPins, Memtable};
use rk_model::{Entry, Op};
use rk_walks::numbered;
use std::alloc::Global;
use std::sync::Arc;
use std::test::Fail;

// The chunk of some entries.
fn chunk_of(alloc: Global, entries: &[Entry]) -> Result<Arc<Chunk>, Fail>
    requires { NumbersRise entries.now }
{
    if entries.is_empty() {
        return Err("a commit of no operation".into());
    }
    let memtable = Memtable::new(alloc)?.grown(entries, 9)?;
    Ok(memtable.pin()?.pop().ok_or("there is no chunk")?)
}

/// The chunks of the commits so far, and the last number.
#[derive(Drop)]
pub(super) struct Chunks {
    alloc: Global,
    chunks: Vec<Arc<Chunk>>,
    last: u64,
}

impl Chunks {
    pub(super) fn new(alloc: Global) -> Chunks {
        Chunks {
            alloc,
            chunks: Vec::new(alloc),
            last: 0,
        }
    }

    /// Makes a chunk of the operations.
    pub(super) fn commit(&mut self, ops: Vec<Op>) -> Result<(), Fail> {
        let first = self.last.checked_add(1).ok_or("too many entries")?;
        let entries = numbered(self.alloc, first, ops)?;
        self.last = entries.last().ok_or("a commit of no operation")?.seq;
        self.chunks.push(chunk_of(self.alloc, &entries)?)?;
        Ok(())
    }

    /// All chunks, to be read up to a number.
    pub(super) fn pins_at(&self, number: u64) -> Result<MemPins, Fail> {
        let mut chunks = Vec::new(self.alloc);
        for chunk in &self.chunks {
            chunks.push(Arc::try_clone(chunk)?)?;
        }
        Ok(MemPins { number, chunks })
    }

    /// All chunks, to be read up to the last number.
    pub(super) fn pins(&self) -> Result<MemPins, Fail> {
        self.pins_at(self.last)
    }
}
