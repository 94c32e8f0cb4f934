// Calls of all sources of a merge, one after another.
ghost use Rattle.std.specs.Prelude.{◌≡◌, ◌<◌, ◌≤◌, ℕ, Some, not, length, map, IsTrue, IfSome};
ghost use Rattle.std.specs.Option.{option_map};
ghost use Rattle.rk_model.specs.Cuts.{cut_copied, count_before, gap_past};
ghost use Rattle.rk_model.specs.Items.{point_takes};
ghost use Rattle.rk_model.specs.Standings.{walked, pass_to, step_gap, step_from, step_to};
ghost use Rattle.rk_pointmerge.specs.Merges.{Faces};
ghost use Rattle.rk_pointmerge.specs.Moves.{Reaches, PassesCut, AllMove};

use rk_key::UserKey;
use rk_model::{Cut, Entry, Source};
use rk_outside::{Counting, SourceError};

// Each source to the gap of a cut.
pub(crate) fn seek_all<R: Counting, S: Source<R, Item = Entry>>(
    sources: &mut [S],
    reader: &mut R,
    cut: Cut<&UserKey>,
    forward: bool,
) -> Result<(), SourceError>
    ensures { AllMove S.listing S.standing (λ s t. Reaches (S.listing s) (S.standing t) forward (λ xs. Some (count_before (point_takes (cut_copied cut.entry)) xs))) (λ s. 0) (λ s. (S.listing s).seek_price forward (cut_copied cut.entry)) sources.old sources.new (R.counts reader.old) (R.counts reader.new) result }
{
    for source in sources.iter_mut() {
        source.seek(reader, cut, forward)?;
    }
    Ok(())
}

// Each source on to the gap of a cut.
pub(crate) fn pass_all<R: Counting, S: Source<R, Item = Entry>>(
    sources: &mut [S],
    reader: &mut R,
    cut: Cut<&UserKey>,
    forward: bool,
) -> Result<(), SourceError>
    requires { Faces S.standing forward sources.old }
    ensures { AllMove S.listing S.standing (λ s t. PassesCut (S.listing s) (S.standing s) (S.standing t) forward (point_takes (cut_copied cut.entry))) (λ s. walked (S.listing s) forward (S.standing s).gap) (λ s. pass_to (S.listing s) forward (point_takes (cut_copied cut.entry)) (S.standing s)) sources.old sources.new (R.counts reader.old) (R.counts reader.new) result }
{
    for source in sources.iter_mut() {
        source.pass(reader, cut, forward)?;
    }
    Ok(())
}

// Each source to the other side of its gap.
pub(crate) fn turn_all<R: Counting, S: Source<R, Item = Entry>>(
    sources: &mut [S],
    reader: &mut R,
    forward: bool,
) -> Result<(), SourceError>
    requires { Faces S.standing (not forward) sources.old }
    ensures { AllMove S.listing S.standing (λ s t. Reaches (S.listing s) (S.standing t) forward (λ xs. option_map (step_gap forward (S.standing s)) (S.standing s).gap)) (λ s. step_from (S.listing s) forward (S.standing s)) (λ s. step_to (S.listing s) forward (S.standing s)) sources.old sources.new (R.counts reader.old) (R.counts reader.new) result }
{
    for source in sources.iter_mut() {
        source.step(reader, forward)?;
    }
    Ok(())
}
