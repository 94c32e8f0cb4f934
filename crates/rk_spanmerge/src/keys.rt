// The range keys next to a key, newest first.
ghost use Rattle.std.specs.Prelude.{◌≡◌, IfOk, OnOk};
ghost use Rattle.std.specs.List.{flat_map};
ghost use Rattle.rk_fragment.specs.Fragments.{newest_first};
ghost use Rattle.rk_spanmerge.specs.Moves.{insert_all, keys_met, misses};

use rk_fragment::NewestFirst;
use rk_key::UserKey;
use rk_model::{RangeKey, Source, Span};
use rk_outside::{Counting, NoMemory};
use std::alloc::Global;

// Copies of all these keys.
fn insert_copies(keys: &mut NewestFirst, more: &[RangeKey]) -> Result<(), NoMemory>
    ensures { OnOk result (keys.new ≡ insert_all more.now keys.old) }
{
    for i in (0..more.len()).rev() {
        keys.insert(more[i].copy()?)?;
    }
    Ok(())
}

// Whether a span doesn't reach a key.
fn misses(span: &Span, key: &UserKey, forward: bool) -> bool
    ensures { result ≡ misses forward key.now span.now }
{
    if forward {
        *key < span.start
    } else {
        span.end < *key
    }
}

// Copies of the range keys that a source shows next to a key.
fn insert_shown<R: Counting, S: Source<R, Item = Span>>(
    keys: &mut NewestFirst,
    source: &S,
    key: &UserKey,
    forward: bool,
) -> Result<(), NoMemory>
    ensures { OnOk result (keys.new ≡ insert_all (keys_met forward key.now (S.standing source.now).here) keys.old) }
{
    let Some(span) = source.here() else {
        return Ok(());
    };
    if misses(span, key, forward) {
        return Ok(());
    }
    insert_copies(keys, span.keys.as_slice())
}

// Copies of the range keys that the sources show next to a key.
pub(crate) fn keys_met<R: Counting, S: Source<R, Item = Span>>(
    alloc: Global,
    sources: &[S],
    key: &UserKey,
    forward: bool,
) -> Result<NewestFirst, NoMemory>
    ensures { IfOk result (λ keys. keys ≡ newest_first (flat_map (λ s. keys_met forward key.now (S.standing s).here) sources.now)) }
{
    let mut keys = NewestFirst::new(alloc);
    for i in (0..sources.len()).rev() {
        insert_shown::<R, S>(&mut keys, &sources[i], key, forward)?;
    }
    Ok(keys)
}
