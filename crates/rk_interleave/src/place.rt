// Placing the sources at a cut.
ghost use Rattle.std.specs.Prelude.{◌≡◌, IsTrue, true, is_some};
ghost use Rattle.rk_model.specs.Cuts.{cut_copied};
ghost use Rattle.rk_model.specs.Items.{point_takes, span_takes};
ghost use Rattle.rk_sources.specs.Bounds.{Keeps};
ghost use Rattle.rk_interleave.specs.Interleaving.{some_name};
ghost use Rattle.rk_interleave.specs.Settling.{inner_listing, inner_standing, Arrives, IsRead, cut_gap, point_gap};

use rk_key::UserKey;
use rk_model::{Cut, Entry, Source, Span};
use rk_outside::{Counting, SourceError};
use rk_sources::Bounded;

// Places both sources at a cut: by seeks, or where they stand on the way to it, by going on. Points then go on when the
// span that is seen is known.
pub(crate) fn place<R: Counting, P: Source<R, Item = Entry>, S: Source<R, Item = Span>>(
    points: &mut Bounded<P>,
    spans: &mut S,
    reader: &mut R,
    cut: Cut<&UserKey>,
    forward: bool,
    passes: bool,
) -> Result<(), SourceError>
    requires known { IsTrue passes → is_some (S.standing spans.old).gap ≡ true }
    requires faces { IsTrue passes → (S.standing spans.old).forward ≡ forward }
    requires points_known { IsTrue passes → is_some (inner_standing P.listing P.standing points.old).gap ≡ true }
    requires points_face { IsTrue passes → (inner_standing P.listing P.standing points.old).forward ≡ forward }
    ensures kept { Keeps P.listing points.old points.new }
    ensures points { Arrives (inner_listing P.listing points.old) (inner_listing P.listing points.new) (inner_standing P.listing P.standing points.new) forward (point_gap passes (point_takes (cut_copied cut.entry)) (inner_standing P.listing P.standing points.old)) result }
    ensures spans { Arrives (S.listing spans.old) (S.listing spans.new) (S.standing spans.new) forward (cut_gap passes forward (span_takes forward (cut_copied cut.entry)) (S.standing spans.old)) result }
    ensures reads { IsRead (some_name (P.listing points.old.source) (S.listing spans.old)) (R.counts reader.old) (R.counts reader.new) result }
{
    if passes {
        spans.pass(reader, cut, forward)
    } else {
        points.seek(reader, cut, forward)?;
        spans.seek(reader, cut, forward)
    }
}
