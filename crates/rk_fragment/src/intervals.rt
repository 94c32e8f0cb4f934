// The intervals between written ends, each with its range keys.
ghost use Rattle.std.specs.Prelude.{◌≡◌, ◌≤◌, length, vec_len, true, false, [], map, IfOk, OnOk};
ghost use Rattle.std.specs.Ordering.{is_lt};
ghost use Rattle.std.specs.List.Sorted.{IsPartitionPoint};
ghost use Rattle.rk_model.specs.Spans.{KeysRise};
ghost use Rattle.rk_key.specs.Keys.{key_cmp};
ghost use Rattle.rk_fragment.specs.Fragments.{written};
ghost use Rattle.rk_fragment.specs.Intervals.{starts, with_key, with_entry, interval_at};

use crate::ends::written_ends;
use crate::keys::{KeyList, range_key};
use crate::newest::ranks_of;
use rk_key::UserKey;
use rk_model::{Entry, RangeKey};
use rk_outside::NoMemory;
use std::alloc::Global;
use std::collections::BTreeSet;

/// The keys from a written end up to the next, and the range keys over them.
#[derive(Debug, Drop)]
pub(crate) struct Interval {
    pub(crate) start: UserKey,
    pub(crate) keys: KeyList,
}

/// An interval without range keys for each end.
fn bare_intervals(alloc: Global, ends: BTreeSet<UserKey>) -> Result<Vec<Interval>, NoMemory>
    ensures { IfOk result (λ v. v.items ≡ map (λ a. record { start = a; keys = [] }) ends.keys) }
{
    let mut intervals = Vec::new(alloc);
    for start in ends {
        intervals.push(Interval {
            start,
            keys: KeyList::new(alloc),
        })?;
    }
    Ok(intervals)
}

/// The place of the first interval that doesn't begin below the key.
fn first_from(intervals: &[Interval], key: &UserKey) -> usize
    requires { KeysRise (starts intervals.now) }
    ensures bound { result ≤ length intervals.now }
    ensures point { IsPartitionPoint (λ i. is_lt (key_cmp i.start key.now) ≡ true) (λ i. is_lt (key_cmp i.start key.now) ≡ false) intervals.now result }
{
    intervals.partition_point(|interval| interval.start < *key)
}

/// Counts one range key more for each interval that an entry is over.
fn count_entry(counts: &mut [usize], intervals: &[Interval], entry: &Entry)
    requires rise { KeysRise (starts intervals.now) }
    requires one_each { length counts.old ≡ length intervals.now }
{
    let Some((start, end)) = entry.op.ends() else {
        return;
    };
    let from = first_from(intervals, start);
    let to = first_from(intervals, end);
    if from < to {
        for count in &mut counts[from..to] {
            *count = count.saturating_add(1);
        }
    }
}

/// How many range keys each interval will have.
fn counts_of(
    alloc: Global,
    intervals: &[Interval],
    entries: &[Entry],
) -> Result<Vec<usize>, NoMemory>
    requires { KeysRise (starts intervals.now) }
    ensures { IfOk result (λ counts. vec_len counts ≡ length intervals.now) }
{
    let mut counts = vec![in alloc; 0usize; intervals.len()]?;
    for entry in entries {
        count_entry(&mut counts, intervals, entry);
    }
    Ok(counts)
}

/// Makes room for so many range keys in each interval.
fn reserve_keys(intervals: &mut [Interval], counts: &[usize]) -> Result<(), NoMemory>
    requires { length counts.now ≡ length intervals.old }
    ensures { OnOk result (intervals.new ≡ intervals.old) }
{
    for (i, interval) in intervals.iter_mut().enumerate() {
        interval.keys.reserve(counts[i])?;
    }
    Ok(())
}

/// Puts a range key into each interval, behind its others.
fn push_key(intervals: &mut [Interval], key: &RangeKey) -> Result<(), NoMemory>
    ensures { OnOk result (intervals.new ≡ map (with_key key.now) intervals.old) }
{
    for interval in intervals {
        interval.keys.push(key.copy()?)?;
    }
    Ok(())
}

/// Puts the range key of an entry into each interval that the entry is over.
fn push_entry(alloc: Global, intervals: &mut [Interval], entry: &Entry) -> Result<(), NoMemory>
    requires { KeysRise (starts intervals.old) }
    ensures { OnOk result (intervals.new ≡ map (with_entry entry.now) intervals.old) }
{
    let Some((start, end)) = entry.op.ends() else {
        return Ok(());
    };
    let Some(key) = range_key(alloc, entry)? else {
        return Ok(());
    };
    let from = first_from(intervals, start);
    let to = first_from(intervals, end);
    if from < to {
        push_key(&mut intervals[from..to], &key)?;
    }
    Ok(())
}

/// The intervals between the written ends, without range keys, and with room for those of the entries over each.
fn roomy_intervals(alloc: Global, entries: &[Entry]) -> Result<Vec<Interval>, NoMemory>
    ensures { IfOk result (λ v. v.items ≡ map (λ a. record { start = a; keys = [] }) (written entries.now)) }
{
    let mut intervals = bare_intervals(alloc, written_ends(alloc, entries)?)?;
    let counts = counts_of(alloc, &intervals, entries)?;
    reserve_keys(&mut intervals, &counts)?;
    Ok(intervals)
}

/// The intervals between the written ends, each with the range keys of the entries over it.
///
/// The newest entries come first, so that each range key goes behind those that are there.
pub(crate) fn intervals_of(alloc: Global, entries: &[Entry]) -> Result<Vec<Interval>, NoMemory>
    ensures { IfOk result (λ v. v.items ≡ map (interval_at entries.now) (written entries.now)) }
{
    let mut intervals = roomy_intervals(alloc, entries)?;
    for rank in ranks_of(alloc, entries)? {
        push_entry(alloc, &mut intervals, &entries[rank.1])?;
    }
    Ok(intervals)
}
