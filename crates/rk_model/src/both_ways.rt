//! What a source of points holds, read from a cut on or back from it.
ghost use Rattle.std.specs.Prelude.{◌≡◌, ◌+◌, IfSome, IfOk, OnOk, None, true, false, take, drop, reverse, length};
ghost use Rattle.rk_model.specs.Cuts.{cut_copied, count_before};
ghost use Rattle.rk_model.specs.Items.{point_takes};
ghost use Rattle.rk_model.specs.Reads.{read_from, end_gap, walk_at};
ghost use Rattle.rk_model.specs.Standings.{Costs};

use crate::{Cut, Entry, Source};
use rk_key::UserKey;
use rk_outside::{Counting, SourceError};
use std::alloc::Global;

/// Copies of the points behind a cut, ascending. The source stands at its end then.
///
/// # Errors
///
/// As [`Source`], but the source may stand at any gap then.
pub fn points_from<R: Counting, S: Source<R, Item = Entry>>(
    alloc: Global,
    source: &mut S,
    reader: &mut R,
    cut: Cut<&UserKey>,
) -> Result<Vec<Entry>, SourceError>
    ensures points { IfOk result (λ points. IfSome (S.listing source.old).held (λ es. points.items ≡ drop (count_before (point_takes (cut_copied cut.entry)) es) es)) }
    ensures same { S.listing source.new ≡ S.listing source.old }
    ensures over { OnOk result ((S.standing source.new).here ≡ None) }
    ensures costs { Costs (S.listing source.old) (S.standing source.old).owed (S.standing source.new).owed (R.counts reader.old) (R.counts reader.new) (walk_at (S.listing source.old) true (count_before (point_takes (cut_copied cut.entry)))) ((S.listing source.old).seek_price true (cut_copied cut.entry) + walk_at (S.listing source.old) true length) result }
{
    read_out(alloc, source, reader, cut, true)
}

/// Copies of the points before a cut, descending. The source stands at its beginning then.
///
/// # Errors
///
/// As [`Source`], but the source may stand at any gap then.
pub fn points_before<R: Counting, S: Source<R, Item = Entry>>(
    alloc: Global,
    source: &mut S,
    reader: &mut R,
    cut: Cut<&UserKey>,
) -> Result<Vec<Entry>, SourceError>
    ensures points { IfOk result (λ points. IfSome (S.listing source.old).held (λ es. points.items ≡ reverse (take (count_before (point_takes (cut_copied cut.entry)) es) es))) }
    ensures same { S.listing source.new ≡ S.listing source.old }
    ensures over { OnOk result ((S.standing source.new).here ≡ None) }
    ensures costs { Costs (S.listing source.old) (S.standing source.old).owed (S.standing source.new).owed (R.counts reader.old) (R.counts reader.new) (walk_at (S.listing source.old) false (count_before (point_takes (cut_copied cut.entry)))) ((S.listing source.old).seek_price false (cut_copied cut.entry) + walk_at (S.listing source.old) false (λ es. 0)) result }
{
    read_out(alloc, source, reader, cut, false)
}

// Copies of the points from a cut in a direction.
fn read_out<R: Counting, S: Source<R, Item = Entry>>(
    alloc: Global,
    source: &mut S,
    reader: &mut R,
    cut: Cut<&UserKey>,
    forward: bool,
) -> Result<Vec<Entry>, SourceError>
    ensures points { IfOk result (λ points. IfSome (S.listing source.old).held (λ es. points.items ≡ read_from forward (count_before (point_takes (cut_copied cut.entry)) es) es)) }
    ensures same { S.listing source.new ≡ S.listing source.old }
    ensures over { OnOk result ((S.standing source.new).here ≡ None) }
    ensures costs { Costs (S.listing source.old) (S.standing source.old).owed (S.standing source.new).owed (R.counts reader.old) (R.counts reader.new) (walk_at (S.listing source.old) forward (count_before (point_takes (cut_copied cut.entry)))) ((S.listing source.old).seek_price forward (cut_copied cut.entry) + walk_at (S.listing source.old) forward (end_gap forward)) result }
{
    let mut points = Vec::new(alloc);
    source.seek(reader, cut, forward)?;
    while let Some(entry) = source.here() {
        points.push(entry.copy()?)?;
        source.step(reader, forward)?;
    }
    Ok(points)
}
