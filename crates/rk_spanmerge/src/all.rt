// The moves of all sources of a merge.
ghost use Rattle.std.specs.Prelude.{◌≡◌, ℕ, ◌<◌, length, map, All, OnOk, slice_index_or};
ghost use Rattle.rk_model.specs.Cuts.{cut_copied};
ghost use Rattle.rk_model.specs.Items.{span_takes};
ghost use Rattle.rk_model.specs.Standings.{Costs};
ghost use Rattle.rk_spanmerge.specs.Moves.{AllFace, IsFacing, Passed, Pays, StandsAt, outlasts};

use rk_key::UserKey;
use rk_model::{Cut, Source, Span};
use rk_outside::{Counting, SourceError};

// Each source goes to the gap of a cut.
pub(crate) fn seek_all<R: Counting, S: Source<R, Item = Span>>(
    sources: &mut [S],
    reader: &mut R,
    cut: Cut<&UserKey>,
    forward: bool,
) -> Result<(), SourceError>
    ensures same { map S.listing sources.new ≡ map S.listing sources.old }
    ensures faces { OnOk result (AllFace S.standing sources.new forward) }
    ensures stands { OnOk result (All (λ s. StandsAt (span_takes forward (cut_copied cut.entry)) (S.listing s) (S.standing s)) sources.new) }
    ensures pays { Pays S.listing S.standing sources.old sources.new (R.counts reader.old) (R.counts reader.new) result }
{
    for source in sources.iter_mut() {
        source.seek(reader, cut, forward)?;
    }
    Ok(())
}

// Whether a span goes on beyond a key.
fn outlasts(span: &Span, key: &UserKey, forward: bool) -> bool
    ensures { result ≡ outlasts forward key.now span.now }
{
    if forward {
        *key < span.end
    } else {
        span.start < *key
    }
}

// Past a key, where the span that the source sees ends there or before, in its direction.
fn pass_one<R: Counting, S: Source<R, Item = Span>>(
    source: &mut S,
    reader: &mut R,
    key: &UserKey,
    forward: bool,
) -> Result<(), SourceError>
    requires { IsFacing forward (S.standing source.old) }
    ensures same { S.listing source.new ≡ S.listing source.old }
    ensures passed { OnOk result (Passed forward key.now (S.listing source.old) (S.standing source.old) (S.standing source.new)) }
    ensures costs { Costs (S.listing source.old) (S.standing source.old).owed (S.standing source.new).owed (R.counts reader.old) (R.counts reader.new) 0 0 result }
{
    let Some(span) = source.here() else {
        return Ok(());
    };
    if outlasts(span, key, forward) {
        return Ok(());
    }
    source.pass(reader, Cut::Below(key), forward)
}

// The same in each source.
pub(crate) fn pass_all<R: Counting, S: Source<R, Item = Span>>(
    sources: &mut [S],
    reader: &mut R,
    key: &UserKey,
    forward: bool,
) -> Result<(), SourceError>
    requires { AllFace S.standing sources.old forward }
    ensures same { map S.listing sources.new ≡ map S.listing sources.old }
    ensures passed { OnOk result ((k : ℕ) (d : S) → k < length sources.old → Passed forward key.now (S.listing (slice_index_or sources.old k d)) (S.standing (slice_index_or sources.old k d)) (S.standing (slice_index_or sources.new k d))) }
    ensures pays { Pays S.listing S.standing sources.old sources.new (R.counts reader.old) (R.counts reader.new) result }
{
    for source in sources.iter_mut() {
        pass_one(source, reader, key, forward)?;
    }
    Ok(())
}
