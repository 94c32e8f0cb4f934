// Chunks that stand one on the other, the newest last, each at most half as long as the one below it.
ghost use Rattle.std.specs.Prelude.{◌≡◌, ◌∷◌, [], ◌++◌, map, IfOk};
ghost use Rattle.std.specs.Arc.{arc_value};
ghost use Rattle.std.specs.List.{AllByRecursion};
ghost use Rattle.std.specs.List.Sorted.{IsPermutation};
ghost use Rattle.rk_mem.specs.Memory.{entries_of};
ghost use Rattle.rk_mem.specs.Towers.{IsAbove, IsFilled, IsTower, IsNewest};

use crate::Chunk;
use rk_outside::NoMemory;
use std::alloc::Global;
use std::sync::Arc;

/// Puts a chunk on top.
fn topped(
    alloc: Global,
    mut chunks: Vec<Arc<Chunk>>,
    newest: Chunk,
) -> Result<Vec<Arc<Chunk>>, NoMemory>
    ensures { IfOk result (λ v. map arc_value v.items ≡ map arc_value chunks.items ++ newest ∷ []) }
{
    chunks.push(Arc::new(alloc, newest)?)?;
    Ok(chunks)
}

/// Puts a chunk on top. While the one below has fewer than twice as many entries, the two become one.
pub(crate) fn piled(
    alloc: Global,
    mut chunks: Vec<Arc<Chunk>>,
    mut newest: Chunk,
) -> Result<Vec<Arc<Chunk>>, NoMemory>
    requires tower { IsTower (map arc_value chunks.items) }
    requires newest { IsNewest (map arc_value chunks.items) newest }
    ensures tower { IfOk result (λ v. IsTower (map arc_value v.items)) }
    ensures same { IfOk result (λ v. IsPermutation (entries_of (map arc_value chunks.items) ++ newest) (entries_of (map arc_value v.items))) }
{
    while let Some(older) = chunks.pop() {
        if older.len() / 2 >= newest.len() {
            chunks.push(older)?;
            return topped(alloc, chunks, newest);
        }
        newest = Chunk::merged(alloc, &older, &newest)?;
    }
    topped(alloc, chunks, newest)
}
