// The written ends, and the cover at each.
ghost use Rattle.std.specs.Prelude.{◌≡◌, ◌&&◌, IfOk, OnOk, map, if◌then◌else◌};
ghost use Rattle.rk_model.specs.Covers.{cover};
ghost use Rattle.rk_model.specs.Spans.{at_or_above, above, below, in_bounds, insert_key, written_ends};
ghost use Rattle.rk_model.specs.Plain.{covered_ends};

use crate::copies::copy_key;
use crate::plain::cover::Cover;
use crate::plain::covers::cover;
use crate::plain::keys::{insert_bound, insert_key};
use crate::{Entry, IterOptions};
use rk_key::UserKey;
use rk_outside::NoMemory;
use std::alloc::Global;

/// A written end, and the pairs that hold there.
#[derive(Debug, Drop)]
pub(crate) struct EndCover {
    pub(crate) key: UserKey,
    pub(crate) cover: Cover,
}

#[tactic(auto, using(crate::proofs::Orders::is_ge_is))]
fn is_at_or_above(lower: &Option<UserKey>, x: &UserKey) -> bool
    ensures { result ≡ at_or_above lower.now x.now }
{
    match lower {
        Some(l) => *x >= *l,
        None => true,
    }
}

fn is_above(lower: &Option<UserKey>, x: &UserKey) -> bool
    ensures { result ≡ above lower.now x.now }
{
    match lower {
        Some(l) => *l < *x,
        None => true,
    }
}

/// Whether a key is below the upper bound.
pub(crate) fn is_below(upper: &Option<UserKey>, x: &UserKey) -> bool
    ensures { result ≡ below upper.now x.now }
{
    match upper {
        Some(u) => *x < *u,
        None => true,
    }
}

impl IterOptions {
    /// Whether a key is within the bounds.
    pub(crate) fn has_in_bounds(&self, x: &UserKey) -> bool
        ensures { result ≡ in_bounds self.now x.now }
    {
        is_at_or_above(&self.lower, x) && is_below(&self.upper, x)
    }

    /// Whether a key is strictly inside the bounds.
    fn has_inside(&self, x: &UserKey) -> bool
        ensures { result ≡ (above self.now.lower x.now && below self.now.upper x.now) }
    {
        is_above(&self.lower, x) && is_below(&self.upper, x)
    }
}

fn insert_inside(
    keys: &mut Vec<UserKey>,
    options: &IterOptions,
    x: &UserKey,
) -> Result<(), NoMemory>
    ensures { OnOk result (keys.new.items ≡ (if above options.now.lower x.now && below options.now.upper x.now then insert_key x.now keys.old.items else keys.old.items)) }
{
    if options.has_inside(x) {
        insert_key(keys, x)?;
    }
    Ok(())
}

/// The bounds, and the written ends strictly inside them.
fn written_ends(
    alloc: Global,
    entries: &[Entry],
    options: &IterOptions,
) -> Result<Vec<UserKey>, NoMemory>
    ensures { IfOk result (λ keys. keys.items ≡ written_ends entries.now options.now) }
{
    let mut keys = Vec::new(alloc);
    for i in (0..entries.len()).rev() {
        if let Some((start, end)) = entries[i].op.ends() {
            insert_inside(&mut keys, options, end)?;
            insert_inside(&mut keys, options, start)?;
        }
    }
    insert_bound(&mut keys, &options.upper)?;
    insert_bound(&mut keys, &options.lower)?;
    Ok(keys)
}

fn with_covers(
    alloc: Global,
    entries: &[Entry],
    keys: &[UserKey],
) -> Result<Vec<EndCover>, NoMemory>
    ensures { IfOk result (λ ends. ends.items ≡ map (λ a. record { key = a; cover = cover entries.now a }) keys.now) }
{
    let mut ends = Vec::new(alloc);
    for key in keys {
        ends.push(EndCover {
            key: copy_key(key)?,
            cover: cover(alloc, entries, key)?,
        })?;
    }
    Ok(ends)
}

/// The written ends with their covers.
pub(crate) fn covered_ends(
    alloc: Global,
    entries: &[Entry],
    options: &IterOptions,
) -> Result<Vec<EndCover>, NoMemory>
    ensures { IfOk result (λ ends. ends.items ≡ covered_ends entries.now options.now) }
{
    let keys = written_ends(alloc, entries, options)?;
    with_covers(alloc, entries, &keys)
}
