// Moves of all sources of a merge, and which of them shows the nearest entry then.
ghost use Rattle.std.specs.Prelude.{◌≡◌, ◌<◌, ◌≤◌, ℕ, Option, map, not, false, true, length, IsSome, IsTrue, IfSome, IfOk, OnOk, slice_index_or};
ghost use Rattle.std.specs.Option.{option_map_or};
ghost use Rattle.rk_model.specs.Cuts.{cut_copied, count_before, gap_on, gap_past, is_passed};
ghost use Rattle.rk_model.specs.Items.{point_takes};
ghost use Rattle.rk_model.specs.Standings.{can_step, step_gap, step_from, step_to};
ghost use Rattle.rk_pointmerge.specs.Merges.{merged, merged_standing, come, still, shown, Faces, InShares, StandTogether};
ghost use Rattle.rk_pointmerge.specs.Moves.{Arrives, OneMoves};

use crate::all::{pass_all, seek_all, turn_all};
use crate::nearest::nearest;
use rk_key::UserKey;
use rk_model::{Cut, Entry, Source};
use rk_outside::{Counting, SourceError};

// To the gap of a cut.
pub(crate) fn seek_to<R: Counting, S: Source<R, Item = Entry>>(
    sources: &mut [S],
    reader: &mut R,
    cut: Cut<&UserKey>,
    forward: bool,
) -> Result<Option<usize>, SourceError>
    ensures { Arrives S.listing S.standing sources.old sources.new forward (λ us. count_before (point_takes (cut_copied cut.entry)) us) (R.counts reader.old) (R.counts reader.new) 0 ((merged (map S.listing sources.old)).seek_price forward (cut_copied cut.entry)) result }
{
    seek_all(sources, reader, cut, forward)?;
    Ok(nearest::<R, S>(sources, forward))
}

// On to the gap of a cut.
pub(crate) fn pass_to<R: Counting, S: Source<R, Item = Entry>>(
    sources: &mut [S],
    reader: &mut R,
    cut: Cut<&UserKey>,
    forward: bool,
) -> Result<Option<usize>, SourceError>
    requires faces { Faces S.standing forward sources.old }
    requires shares { InShares S.listing S.standing sources.old }
    ensures arrives { Arrives S.listing S.standing sources.old sources.new forward (λ us. gap_past forward (count_before (point_takes (cut_copied cut.entry)) us) (come S.standing sources.old)) (R.counts reader.old) (R.counts reader.new) ((merged (map S.listing sources.old)).walk_price forward (come S.standing sources.old)) (option_map_or (λ us. (merged (map S.listing sources.old)).walk_price forward (gap_past forward (count_before (point_takes (cut_copied cut.entry)) us) (come S.standing sources.old))) (merged (map S.listing sources.old)).held 0) result }
    ensures beyond { IfOk result (λ at. IfSome (shown S.standing sources.new at) (λ x. is_passed forward (point_takes (cut_copied cut.entry) x) ≡ false)) }
    ensures left { OnOk result (still S.standing sources.new ≤ still S.standing sources.old) }
    ensures fewer { OnOk result ((at : Option ℕ) → IfSome (shown S.standing sources.old at) (λ x. IsTrue (is_passed forward (point_takes (cut_copied cut.entry) x)) → still S.standing sources.new < still S.standing sources.old)) }
{
    pass_all(sources, reader, cut, forward)?;
    Ok(nearest::<R, S>(sources, forward))
}

// One entry on, or to the other side of the gap.
pub(crate) fn step_all<R: Counting, S: Source<R, Item = Entry>>(
    sources: &mut [S],
    reader: &mut R,
    at: Option<usize>,
    was: bool,
    forward: bool,
) -> Result<Option<usize>, SourceError>
    requires stands { StandTogether S.listing S.standing sources.old at was }
    requires can { IsTrue (can_step forward (merged_standing S.listing S.standing sources.old at was true)) }
    ensures arrives { Arrives S.listing S.standing sources.old sources.new forward (λ us. step_gap forward (merged_standing S.listing S.standing sources.old at was true) (come S.standing sources.old)) (R.counts reader.old) (R.counts reader.new) (step_from (merged (map S.listing sources.old)) forward (merged_standing S.listing S.standing sources.old at was true)) (step_to (merged (map S.listing sources.old)) forward (merged_standing S.listing S.standing sources.old at was true)) result }
    ensures fewer { OnOk result (was ≡ forward → still S.standing sources.new < still S.standing sources.old) }
{
    if was == forward {
        go_on(sources, reader, at, forward)
    } else {
        turn(sources, reader, forward)
    }
}

// From the entry of one source on.
fn go_on<R: Counting, S: Source<R, Item = Entry>>(
    sources: &mut [S],
    reader: &mut R,
    at: Option<usize>,
    forward: bool,
) -> Result<Option<usize>, SourceError>
    requires stands { StandTogether S.listing S.standing sources.old at forward }
    requires shows { IsSome (shown S.standing sources.old at) }
    ensures arrives { Arrives S.listing S.standing sources.old sources.new forward (λ us. gap_on forward (come S.standing sources.old)) (R.counts reader.old) (R.counts reader.new) ((merged (map S.listing sources.old)).walk_price forward (come S.standing sources.old)) ((merged (map S.listing sources.old)).walk_price forward (gap_on forward (come S.standing sources.old))) result }
    ensures fewer { OnOk result (still S.standing sources.new < still S.standing sources.old) }
{
    let Some(at) = at else {
        return Ok(None);
    };
    step_one(sources, reader, at, forward)?;
    Ok(nearest::<R, S>(sources, forward))
}

// The step of one source.
fn step_one<R: Counting, S: Source<R, Item = Entry>>(
    sources: &mut [S],
    reader: &mut R,
    at: usize,
    forward: bool,
) -> Result<(), SourceError>
    requires among { at < length sources.old }
    requires faces { Faces S.standing forward sources.old }
    requires shows { (d : S) → IsSome (S.standing (slice_index_or sources.old at d)).here }
    ensures { OneMoves S.listing S.standing sources.old sources.new at forward (R.counts reader.old) (R.counts reader.new) result }
{
    sources[at].step(reader, forward)
}

// To the other side of the gap.
fn turn<R: Counting, S: Source<R, Item = Entry>>(
    sources: &mut [S],
    reader: &mut R,
    forward: bool,
) -> Result<Option<usize>, SourceError>
    requires faces { Faces S.standing (not forward) sources.old }
    requires shares { InShares S.listing S.standing sources.old }
    ensures { Arrives S.listing S.standing sources.old sources.new forward (λ us. come S.standing sources.old) (R.counts reader.old) (R.counts reader.new) 0 ((merged (map S.listing sources.old)).turn_price forward (come S.standing sources.old)) result }
{
    turn_all(sources, reader, forward)?;
    Ok(nearest::<R, S>(sources, forward))
}
