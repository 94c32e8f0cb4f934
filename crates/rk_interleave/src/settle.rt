// Going on from a cut to where the nearest position is seen.
ghost use Rattle.std.specs.Prelude.{◌≡◌, IsTrue, OnOk, IfOk, Some, true, is_some, not, ◌&&◌, if◌then◌else◌};
ghost use Rattle.std.specs.Option.{option_copied, option_map};
ghost use Rattle.rk_model.specs.Cuts.{cut_copied, gap_on};
ghost use Rattle.rk_model.specs.Standings.{names};
ghost use Rattle.rk_sources.specs.Bounds.{Keeps};
ghost use Rattle.rk_interleave.specs.Interleaving.{some_name};
ghost use Rattle.rk_interleave.specs.Settling.{inner_listing, inner_standing, Arrives, IsRead, GoesOver, is_stepped_over, has_begun, open_span, is_left};

use crate::seen::{has_begun, is_in, is_stepped_over};
use rk_key::UserKey;
use rk_model::{Cut, Entry, IterOptions, Source, Span};
use rk_outside::{Counting, SourceError};
use rk_sources::Bounded;

// From the sources at a cut to the nearest position. The answer is whether the span that is seen has begun before the
// cut; then the position is the point that is seen, in it.
pub(crate) fn settle<R: Counting, P: Source<R, Item = Entry>, S: Source<R, Item = Span>>(
    points: &mut Bounded<P>,
    spans: &mut S,
    reader: &mut R,
    options: &IterOptions,
    cut: Cut<&UserKey>,
    forward: bool,
) -> Result<bool, SourceError>
    requires known { is_some (S.standing spans.old).gap ≡ true }
    requires faces { (S.standing spans.old).forward ≡ forward }
    requires points_known { is_some (inner_standing P.listing P.standing points.old).gap ≡ true }
    requires points_face { (inner_standing P.listing P.standing points.old).forward ≡ forward }
    ensures kept { Keeps P.listing points.old points.new }
    ensures points { GoesOver forward (is_stepped_over forward (cut_copied cut.entry) options.now (open_span forward (cut_copied cut.entry) (S.standing spans.old).here)) (inner_listing P.listing points.old) (inner_standing P.listing P.standing points.old) (inner_standing P.listing P.standing points.new) result }
    ensures spans { Arrives (S.listing spans.old) (S.listing spans.new) (S.standing spans.new) forward (λ ss. option_map (λ g. if is_left forward (cut_copied cut.entry) (S.standing spans.old).here (inner_standing P.listing P.standing points.new).here then gap_on true g else g) (S.standing spans.old).gap) result }
    ensures begun { IfOk result (λ begun. begun ≡ (has_begun forward (cut_copied cut.entry) (S.standing spans.old).here && not (is_left forward (cut_copied cut.entry) (S.standing spans.old).here (inner_standing P.listing P.standing points.new).here))) }
    ensures reads { IsRead (some_name (P.listing points.old.source) (S.listing spans.old)) (R.counts reader.old) (R.counts reader.new) result }
{
    let span = spans.here();
    let begun = has_begun(span, cut, forward);
    let open = if !forward || begun { span } else { None };
    step_over(points, reader, options, open, cut, forward)?;
    if begun && !is_in(span, <Bounded<P> as Source<R>>::here(points)) {
        spans.step(reader, true)?;
        return Ok(false);
    }
    Ok(begun)
}

// On over the points that the cut passes, and those in the span that it hides.
fn step_over<R: Counting, P: Source<R, Item = Entry>>(
    points: &mut Bounded<P>,
    reader: &mut R,
    options: &IterOptions,
    span: Option<&Span>,
    cut: Cut<&UserKey>,
    forward: bool,
) -> Result<(), SourceError>
    requires known { is_some (inner_standing P.listing P.standing points.old).gap ≡ true }
    requires faces { (inner_standing P.listing P.standing points.old).forward ≡ forward }
    ensures kept { Keeps P.listing points.old points.new }
    ensures points { GoesOver forward (is_stepped_over forward (cut_copied cut.entry) options.now (option_copied span.entry)) (inner_listing P.listing points.old) (inner_standing P.listing P.standing points.old) (inner_standing P.listing P.standing points.new) result }
    ensures reads { IsRead (names (P.listing points.old.source)) (R.counts reader.old) (R.counts reader.new) result }
{
    while let Some(entry) = <Bounded<P> as Source<R>>::here(points) {
        if !is_stepped_over(entry, options, span, cut, forward) {
            break;
        }
        points.step(reader, forward)?;
    }
    Ok(())
}
