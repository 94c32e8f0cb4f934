// Two lists of entries as one.
ghost use Rattle.std.specs.Prelude.{◌≡◌, ◌≤◌, ◌++◌, length, IfOk, OnOk, IsTrue};
ghost use Rattle.std.specs.Ordering.{is_lt};
ghost use Rattle.std.specs.List.Sorted.{IsPermutation};
ghost use Rattle.rk_model.specs.Cuts.{count_before};
ghost use Rattle.rk_model.specs.Sources.{are_points, entry_cmp};
ghost use Rattle.rk_mem.specs.Chunks.{AreNewer};

use crate::shared::Shared;
use rk_model::{Entry, compare_entries};
use rk_outside::NoMemory;
use std::alloc::Global;

/// Puts copies of entries behind the others.
fn push_all(all: &mut Vec<Entry>, entries: &[Entry]) -> Result<(), NoMemory>
    ensures { OnOk result (all.new.items ≡ all.old.items ++ entries.now) }
{
    for entry in entries {
        all.push(entry.copy()?)?;
    }
    Ok(())
}

/// Shares points, and puts them behind the others.
fn share_all(all: &mut Vec<Shared>, points: &[Shared]) -> Result<(), NoMemory>
    ensures { OnOk result (all.new.items ≡ all.old.items ++ points.now) }
{
    for point in points {
        all.push(point.share()?)?;
    }
    Ok(())
}

/// How many of the points stand before an entry.
fn count_before(points: &[Shared], entry: &Entry) -> usize
    ensures count { result ≡ count_before (λ point. is_lt (entry_cmp point entry.now)) points.now }
    ensures within { result ≤ length points.now }
{
    for (i, point) in points.iter().enumerate() {
        if !compare_entries(point.entry(), entry).is_lt() {
            return i;
        }
    }
    points.len()
}

/// Older points and newer ones, in order. They are shared with the two lists.
pub(crate) fn merged(
    alloc: Global,
    older: &[Shared],
    newer: &[Shared],
) -> Result<Vec<Shared>, NoMemory>
    requires older { IsTrue (are_points older.now) }
    requires newer { IsTrue (are_points newer.now) }
    requires apart { AreNewer older.now newer.now }
    ensures same { IfOk result (λ points. IsPermutation (older.now ++ newer.now) points.items) }
    ensures in_order { IfOk result (λ points. IsTrue (are_points points.items)) }
{
    let mut points = Vec::with_capacity(alloc, older.len() + newer.len())?;
    let mut rest = newer;
    for point in older {
        let (before, behind) = rest.split_at(count_before(rest, point.entry()));
        share_all(&mut points, before)?;
        points.push(point.share()?)?;
        rest = behind;
    }
    share_all(&mut points, rest)?;
    Ok(points)
}

/// Copies of entries.
pub(crate) fn copied(alloc: Global, entries: &[Entry]) -> Result<Vec<Entry>, NoMemory>
    ensures { IfOk result (λ copies. copies.items ≡ entries.now) }
{
    let mut copies = Vec::with_capacity(alloc, entries.len())?;
    push_all(&mut copies, entries)?;
    Ok(copies)
}

/// Copies of entries, and of newer ones behind them.
pub(crate) fn joined(
    alloc: Global,
    older: &[Entry],
    newer: &[Entry],
) -> Result<Vec<Entry>, NoMemory>
    ensures { IfOk result (λ entries. entries.items ≡ older.now ++ newer.now) }
{
    let mut entries = Vec::with_capacity(alloc, older.len() + newer.len())?;
    push_all(&mut entries, older)?;
    push_all(&mut entries, newer)?;
    Ok(entries)
}
