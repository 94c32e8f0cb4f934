// The sources over pinned chunks.
ghost use Rattle.std.specs.Prelude.{IfOk, map};
ghost use Rattle.std.specs.Arc.{arc_value};
ghost use Rattle.rk_iter.specs.Inside.{HavePoints, HaveSpans};

use rk_mem::{Chunk, ChunkPoints, ChunkSpans};
use rk_outside::NoMemory;
use std::alloc::Global;
use std::sync::Arc;

// The points of each.
pub(crate) fn points_of(alloc: Global, chunks: &[Arc<Chunk>]) -> Result<Vec<ChunkPoints>, NoMemory>
    ensures { IfOk result (λ sources. HavePoints (map arc_value chunks.now) sources.items) }
{
    let mut sources = Vec::with_capacity(alloc, chunks.len())?;
    for chunk in chunks {
        sources.push(ChunkPoints::new(alloc, Arc::try_clone(chunk)?)?)?;
    }
    Ok(sources)
}

// The spans of each.
pub(crate) fn spans_of(alloc: Global, chunks: &[Arc<Chunk>]) -> Result<Vec<ChunkSpans>, NoMemory>
    ensures { IfOk result (λ sources. HaveSpans (map arc_value chunks.now) sources.items) }
{
    let mut sources = Vec::with_capacity(alloc, chunks.len())?;
    for chunk in chunks {
        sources.push(ChunkSpans::new(alloc, Arc::try_clone(chunk)?)?)?;
    }
    Ok(sources)
}
