ghost use Rattle.std.specs.Prelude.{◌≡◌, IfOk};
ghost use Rattle.rk_coalesce.specs.Numbers.{newest_at};
ghost use Rattle.rk_coalesce.specs.Places.{stays};
ghost use Rattle.rk_coalesce.specs.SpanKeys.{kept_keys};

use crate::newest::Newest;
use crate::place::{is_in_lowest, is_set};
use crate::shadow::{is_shadowed, newest_of};
use rk_model::{RangeKey, Span};
use rk_outside::NoMemory;
use std::alloc::Global;

/// Whether a range key is kept.
fn stays(newest: &Newest, stripes: &[u64], bottom: bool, key: &RangeKey) -> bool
    ensures { result ≡ stays (newest_at newest.now) stripes.now bottom key.now }
{
    !is_shadowed(newest, stripes, key)
        && !(bottom && is_in_lowest(stripes, key.seq) && !is_set(key))
}

/// The range keys of a span that a flush or a compaction keeps, in the span's order.
///
/// A stripe reaches up to one of the given numbers, which rise, from above the one before. A range key is dropped
/// where a newer one of its stripe is a delete, or where it is no delete itself and a newer set or unset of its
/// stripe has its suffix. At the bottom, where nothing older is below, unsets and deletes of the lowest stripe are
/// dropped after that. Range keys above all of the numbers are kept.
///
/// # Errors
///
/// `NoMemory` where the list, a value or what is noted meanwhile finds no memory.
pub fn coalesce_stripes(
    alloc: Global,
    span: &Span,
    stripes: &[u64],
    bottom: bool,
) -> Result<Vec<RangeKey>, NoMemory>
    ensures { IfOk result (λ keys. keys.items ≡ kept_keys span.now stripes.now bottom) }
{
    let keys = span.keys.as_slice();
    let newest = newest_of(alloc, keys, stripes)?;
    let mut kept = Vec::new(alloc);
    for key in keys {
        if stays(&newest, stripes, bottom, key) {
            kept.push(key.copy()?)?;
        }
    }
    Ok(kept)
}
