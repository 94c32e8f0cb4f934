// Points and range entries apart, and points in order.
ghost use Rattle.std.specs.Prelude.{◌≡◌, IfOk, OnOk, IsTrue};
ghost use Rattle.std.specs.List.Sorted.{IsPermutation};
ghost use Rattle.rk_model.specs.Operations.{NumbersDiffer};
ghost use Rattle.rk_model.specs.Items.{has_keys, are_keyed};
ghost use Rattle.rk_model.specs.Sources.{are_points};
ghost use Rattle.rk_mem.specs.Chunks.{points_of, ranges_of};

use crate::shared::Shared;
use rk_model::{Entry, Op, compare_entries};
use rk_outside::NoMemory;
use std::alloc::Global;

/// Looks at the keys of an operation, since each key says of itself that it is a key.
fn see_keys(op: &Op)
    ensures { IsTrue (has_keys op.now) }
{
    let _key = op.key().bytes();
    if let Some((start, end)) = op.ends() {
        let _start = start.bytes();
        let _end = end.bytes();
    }
}

/// Moves the points and the range entries apart.
pub(crate) fn split(
    alloc: Global,
    entries: Vec<Entry>,
) -> Result<(Vec<Shared>, Vec<Entry>), NoMemory>
    ensures points { IfOk result (λ parts. parts.0.items ≡ points_of entries.items) }
    ensures ranges { IfOk result (λ parts. parts.1.items ≡ ranges_of entries.items) }
    ensures keyed { IfOk result (λ _. IsTrue (are_keyed entries.items)) }
{
    let mut points = Vec::new(alloc);
    let mut ranges = Vec::new(alloc);
    for entry in entries {
        see_keys(&entry.op);
        if entry.op.is_point() {
            points.push(Shared::new(alloc, entry)?)?;
        } else {
            ranges.push(entry)?;
        }
    }
    Ok((points, ranges))
}

/// Puts points in order.
pub(crate) fn sort(points: &mut Vec<Shared>) -> Result<(), NoMemory>
    requires differ { NumbersDiffer points.old.items }
    requires points { points_of points.old.items ≡ points.old.items }
    ensures same { IsPermutation points.old.items points.new.items }
    ensures in_order { OnOk result (IsTrue (are_points points.new.items)) }
{
    points.sort_by(|e, f| compare_entries(e.entry(), f.entry()))?;
    Ok(())
}
