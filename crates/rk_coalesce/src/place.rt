// Where a range key stands among the others of its span.
ghost use Rattle.std.specs.Prelude.{◌≡◌};
ghost use Rattle.rk_model.specs.Kept.{stripe_of, in_lowest};
ghost use Rattle.rk_coalesce.specs.Places.{suffix_if, is_set_kind};

use rk_key::Suffix;
use rk_model::{RangeKey, RangeKind};

/// A stripe, and a suffix or none for deletes. Of the range keys of one stripe a newer one shadows those with its
/// suffix, or all where it is a delete.
pub(crate) type Place = (u64, Option<Suffix>);

/// The least stripe that isn't below a number.
pub(crate) fn stripe_of(stripes: &[u64], number: u64) -> Option<u64>
    ensures { result ≡ stripe_of stripes.now number }
{
    stripes.iter().find(|stripe| number <= **stripe).copied()
}

/// Whether a number is of the first stripe.
pub(crate) fn is_in_lowest(stripes: &[u64], number: u64) -> bool
    ensures { result ≡ in_lowest stripes.now number }
{
    stripes.first().is_some_and(|lowest| number <= *lowest)
}

/// The suffix that a range key sets or unsets.
pub(crate) fn suffix_of(key: &RangeKey) -> Option<Suffix>
    ensures { result ≡ suffix_if key.now.kind key.now.suffix }
{
    match key.kind {
        RangeKind::Set | RangeKind::Unset => Some(key.suffix.copy()),
        RangeKind::Del => None,
    }
}

pub(crate) fn is_set(key: &RangeKey) -> bool
    ensures { result ≡ is_set_kind key.now.kind }
{
    matches!(key.kind, RangeKind::Set)
}
