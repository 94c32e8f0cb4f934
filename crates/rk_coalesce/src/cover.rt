ghost use Rattle.std.specs.Prelude.{◌≡◌, IfOk, OnOk};
ghost use Rattle.rk_model.specs.Covers.{upto, by_suffix, cover_of};
ghost use Rattle.rk_coalesce.specs.Numbers.{newest_at};
ghost use Rattle.rk_coalesce.specs.Places.{pair_of};
ghost use Rattle.rk_coalesce.specs.SpanKeys.{span_entries};

use crate::newest::Newest;
use crate::place::is_set;
use crate::shadow::{is_shadowed, newest_of};
use rk_model::{RangeKey, Span, SuffixValue};
use rk_outside::NoMemory;
use std::alloc::Global;

/// The cover that the range keys of a span numbered at most `n` give at each key of the span: what sets put and no
/// newer one of these ended, ascending by suffix.
///
/// # Errors
///
/// `NoMemory` where the list, a value or what is noted meanwhile finds no memory.
pub fn coalesce(alloc: Global, span: &Span, n: u64) -> Result<Vec<SuffixValue>, NoMemory>
    ensures { IfOk result (λ pairs. pairs.items ≡ cover_of (upto n (span_entries span.now))) }
{
    let keys = span.keys.as_slice();
    let newest = newest_of(alloc, keys, &[n])?;
    let mut pairs = Vec::new(alloc);
    for key in keys {
        if let Some(pair) = pair_of(&newest, n, key)? {
            pairs.push(pair)?;
        }
    }
    sort(&mut pairs)?;
    Ok(pairs)
}

/// What a set numbered at most `n` put, unless it is shadowed.
fn pair_of(newest: &Newest, n: u64, key: &RangeKey) -> Result<Option<SuffixValue>, NoMemory>
    ensures { IfOk result (λ pair. pair ≡ pair_of (newest_at newest.now) n key.now) }
{
    if key.seq <= n && is_set(key) && !is_shadowed(newest, &[n], key) {
        return Ok(Some(SuffixValue {
            suffix: key.suffix.copy(),
            value: key.value.copy()?,
        }));
    }
    Ok(None)
}

/// Sorts pairs by suffix. Of those with one suffix the later ones come first.
fn sort(pairs: &mut Vec<SuffixValue>) -> Result<(), NoMemory>
    ensures { OnOk result (pairs.new.items ≡ by_suffix pairs.old.items) }
{
    pairs.reverse();
    pairs.sort_by(|p, q| p.suffix.cmp(&q.suffix))?;
    Ok(())
}
