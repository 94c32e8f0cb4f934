// The positions of an iterator.
ghost use Rattle.std.specs.Prelude.{◌≡◌, ◌&&◌, IfOk, OnOk, MatchOption, [], ◌∷◌, filter, map, is_some, if◌then◌else◌};
ghost use Rattle.rk_model.specs.Covers.{cover};
ghost use Rattle.rk_model.specs.Spans.{in_bounds, insert_key, sorted_keys, written_ends};
ghost use Rattle.rk_model.specs.Positions.{put_key, shown, begins_span, positions};
ghost use Rattle.rk_model.specs.Plain.{covered_ends, starts_among, shown_points, put_in};

use crate::plain::covers::{cover, point};
use crate::plain::ends::EndCover;
use crate::plain::keys::insert_key;
use crate::plain::spans::span_at;
use crate::{Entry, IterOptions, Op, SuffixValue};
use rk_key::UserKey;
use rk_outside::{Bytes, NoMemory};
use std::alloc::Global;

impl Op {
    fn put_key(&self) -> Option<&UserKey>
        ensures { MatchOption result (put_key self.now ≡ []) (λ key. put_key self.now ≡ key.now ∷ []) }
    {
        match self {
            Op::Put { key, .. } => Some(key),
            _ => None,
        }
    }
}

/// The value of the point on a key, unless it is masked. The pairs are the key's cover.
pub(crate) fn shown(
    alloc: Global,
    entries: &[Entry],
    options: &IterOptions,
    x: &UserKey,
    pairs: &[SuffixValue],
) -> Result<Option<Bytes>, NoMemory>
    requires { pairs.now ≡ cover entries.now x.now }
    ensures { IfOk result (λ value. value ≡ shown entries.now options.now x.now) }
{
    if options.is_masked(alloc, x, pairs) {
        return Ok(None);
    }
    match point(entries, x) {
        Some(value) => Ok(Some(value.copy()?)),
        None => Ok(None),
    }
}

fn has_shown(
    alloc: Global,
    entries: &[Entry],
    options: &IterOptions,
    x: &UserKey,
) -> Result<bool, NoMemory>
    ensures { IfOk result (λ there. there ≡ is_some (shown entries.now options.now x.now)) }
{
    let pairs = cover(alloc, entries, x)?;
    let value = shown(alloc, entries, options, x, pairs.pairs())?;
    Ok(value.is_some())
}

/// Whether the key is the start of its span.
fn begins_span(
    alloc: Global,
    entries: &[Entry],
    options: &IterOptions,
    ends: &[EndCover],
    x: &UserKey,
) -> Result<bool, NoMemory>
    requires { ends.now ≡ covered_ends entries.now options.now }
    ensures { IfOk result (λ begins. begins ≡ begins_span entries.now options.now x.now) }
{
    match span_at(alloc, entries, options, ends, x)? {
        Some(span) => Ok(span.start().cmp(x).is_eq()),
        None => Ok(false),
    }
}

fn insert_start(
    keys: &mut Vec<UserKey>,
    alloc: Global,
    entries: &[Entry],
    options: &IterOptions,
    ends: &[EndCover],
    x: &UserKey,
) -> Result<(), NoMemory>
    requires { ends.now ≡ covered_ends entries.now options.now }
    ensures { OnOk result (keys.new.items ≡ (if in_bounds options.now x.now && begins_span entries.now options.now x.now then insert_key x.now keys.old.items else keys.old.items)) }
{
    if options.has_in_bounds(x) && begins_span(alloc, entries, options, ends, x)? {
        insert_key(keys, x)?;
    }
    Ok(())
}

/// The starts of spans.
fn span_starts(
    alloc: Global,
    entries: &[Entry],
    options: &IterOptions,
    ends: &[EndCover],
) -> Result<Vec<UserKey>, NoMemory>
    requires { ends.now ≡ covered_ends entries.now options.now }
    ensures { IfOk result (λ keys. keys.items ≡ sorted_keys (starts_among entries.now options.now (map (λ a. a.key) ends.now))) }
{
    let mut keys = Vec::new(alloc);
    for i in (0..ends.len()).rev() {
        insert_start(&mut keys, alloc, entries, options, ends, &ends[i].key)?;
    }
    Ok(keys)
}

fn insert_point(
    keys: &mut Vec<UserKey>,
    alloc: Global,
    entries: &[Entry],
    options: &IterOptions,
    e: &Entry,
) -> Result<(), NoMemory>
    ensures { OnOk result (keys.new.items ≡ put_in (filter (λ x. in_bounds options.now x && is_some (shown entries.now options.now x)) (put_key e.now.op)) keys.old.items) }
{
    if let Some(x) = e.op.put_key() {
        if options.has_in_bounds(x) && has_shown(alloc, entries, options, x)? {
            insert_key(keys, x)?;
        }
    }
    Ok(())
}

/// Puts in the keys within the bounds with a shown point.
fn insert_points(
    keys: &mut Vec<UserKey>,
    alloc: Global,
    entries: &[Entry],
    options: &IterOptions,
) -> Result<(), NoMemory>
    ensures { OnOk result (keys.new.items ≡ put_in (shown_points entries.now options.now entries.now) keys.old.items) }
{
    for i in (0..entries.len()).rev() {
        insert_point(keys, alloc, entries, options, &entries[i])?;
    }
    Ok(())
}

/// The keys within the bounds with a shown point, and the starts of spans.
#[tactic(auto, using(crate::proofs::Positions::positions_are))]
pub(crate) fn positions(
    alloc: Global,
    entries: &[Entry],
    options: &IterOptions,
    ends: &[EndCover],
) -> Result<Vec<UserKey>, NoMemory>
    requires { ends.now ≡ covered_ends entries.now options.now }
    ensures { IfOk result (λ keys. keys.items ≡ positions entries.now options.now) }
{
    let mut keys = span_starts(alloc, entries, options, ends)?;
    insert_points(&mut keys, alloc, entries, options)?;
    Ok(keys)
}
