// The moves of a cursor over the positions.
ghost use Rattle.std.specs.Prelude.{◌≡◌, not, filter, IfOk};
ghost use Rattle.std.specs.Option.{option_copied};
ghost use Rattle.std.specs.Ordering.{is_lt};
ghost use Rattle.rk_key.specs.Keys.{key_cmp};
ghost use Rattle.rk_model.specs.Lists.{first_of, last_of};
ghost use Rattle.rk_model.specs.Positions.{positions};
ghost use Rattle.rk_model.specs.Moves.{least, greatest, raised, lowered, sought};
ghost use Rattle.rk_model.specs.Plain.{next_in, prev_in, below_in};

use crate::copies::copy_key;
use crate::plain::covers::cover;
use crate::plain::spans::has_no_pairs;
use crate::{Cursor, Entry, IterOptions};
use rk_key::UserKey;
use rk_outside::NoMemory;
use std::alloc::Global;

/// At the first of the keys, else at the end.
pub(crate) fn least(keys: &[UserKey]) -> Result<Cursor, NoMemory>
    ensures { IfOk result (λ c. c ≡ least keys.now) }
{
    match keys {
        [x, ..] => Ok(Cursor::At(copy_key(x)?)),
        [] => Ok(Cursor::End),
    }
}

/// At the last of the keys, else at the start.
#[tactic(auto, using(crate::proofs::Lasts::last_of_is))]
pub(crate) fn greatest(keys: &[UserKey]) -> Result<Cursor, NoMemory>
    ensures { IfOk result (λ c. c ≡ greatest keys.now) }
{
    match keys.last() {
        Some(x) => Ok(Cursor::At(copy_key(x)?)),
        None => Ok(Cursor::Start),
    }
}

/// At the first key above `x`, else at the end.
fn least_above(keys: &[UserKey], x: &UserKey) -> Result<Cursor, NoMemory>
    ensures { IfOk result (λ c. c ≡ least (filter (λ p. is_lt (key_cmp x.now p)) keys.now)) }
{
    for i in 0..keys.len() {
        if *x < keys[i] {
            return Ok(Cursor::At(copy_key(&keys[i])?));
        }
    }
    Ok(Cursor::End)
}

/// At the first key not below `x`, else at the end.
#[tactic(auto, using(crate::proofs::Orders::is_ge_is))]
fn least_from(keys: &[UserKey], x: &UserKey) -> Result<Cursor, NoMemory>
    ensures { IfOk result (λ c. c ≡ least (filter (λ p. not (is_lt (key_cmp p x.now))) keys.now)) }
{
    for i in 0..keys.len() {
        if keys[i] >= *x {
            return Ok(Cursor::At(copy_key(&keys[i])?));
        }
    }
    Ok(Cursor::End)
}

/// At the last key below `x`, else at the start.
fn greatest_below(keys: &[UserKey], x: &UserKey) -> Result<Cursor, NoMemory>
    ensures { IfOk result (λ c. c ≡ greatest (filter (λ p. is_lt (key_cmp p x.now)) keys.now)) }
{
    for i in (0..keys.len()).rev() {
        let key = &keys[i];
        if *key < *x {
            return Ok(Cursor::At(copy_key(key)?));
        }
    }
    Ok(Cursor::Start)
}

/// The cursor after a step forward.
pub(crate) fn next(keys: &[UserKey], cursor: &Cursor) -> Result<Cursor, NoMemory>
    ensures { IfOk result (λ c. c ≡ next_in keys.now cursor.now) }
{
    match cursor {
        Cursor::Fresh | Cursor::Start => least(keys),
        Cursor::At(x) => least_above(keys, x),
        Cursor::End => Ok(Cursor::End),
    }
}

/// The cursor after a step backward.
pub(crate) fn prev(keys: &[UserKey], cursor: &Cursor) -> Result<Cursor, NoMemory>
    ensures { IfOk result (λ c. c ≡ prev_in keys.now cursor.now) }
{
    match cursor {
        Cursor::Fresh | Cursor::End => greatest(keys),
        Cursor::Start => Ok(Cursor::Start),
        Cursor::At(x) => greatest_below(keys, x),
    }
}

/// A key below the lower bound is raised to it.
fn raised<'a>(lower: &'a Option<UserKey>, k: &'a UserKey) -> &'a UserKey
    ensures { result.now ≡ raised lower.now k.now }
{
    match lower {
        Some(l) => { if *k < *l { l } else { k } }
        None => k,
    }
}

/// A key above the upper bound is lowered to it.
fn lowered<'a>(upper: &'a Option<UserKey>, k: &'a UserKey) -> &'a UserKey
    ensures { result.now ≡ lowered upper.now k.now }
{
    match upper {
        Some(u) => { if *u < *k { u } else { k } }
        None => k,
    }
}

/// At the key where it is in a span, else at the first position not below it. Keys out of the bounds are the end.
fn sought_at(
    alloc: Global,
    entries: &[Entry],
    options: &IterOptions,
    keys: &[UserKey],
    k: &UserKey,
) -> Result<Cursor, NoMemory>
    requires { keys.now ≡ positions entries.now options.now }
    ensures { IfOk result (λ c. c ≡ sought entries.now options.now k.now) }
{
    if !options.has_in_bounds(k) {
        return Ok(Cursor::End);
    }
    let pairs = cover(alloc, entries, k)?;
    if has_no_pairs(pairs.pairs()) {
        least_from(keys, k)
    } else {
        Ok(Cursor::At(copy_key(k)?))
    }
}

/// The cursor of a seek forward: a key below the lower bound is raised to it.
pub(crate) fn sought(
    alloc: Global,
    entries: &[Entry],
    options: &IterOptions,
    keys: &[UserKey],
    k: &UserKey,
) -> Result<Cursor, NoMemory>
    requires { keys.now ≡ positions entries.now options.now }
    ensures { IfOk result (λ c. c ≡ sought entries.now options.now (raised options.now.lower k.now)) }
{
    sought_at(alloc, entries, options, keys, raised(&options.lower, k))
}

/// The cursor of a seek backward: a key above the upper bound is lowered to it.
pub(crate) fn sought_below(
    keys: &[UserKey],
    upper: &Option<UserKey>,
    k: &UserKey,
) -> Result<Cursor, NoMemory>
    ensures { IfOk result (λ c. c ≡ below_in keys.now upper.now k.now) }
{
    greatest_below(keys, lowered(upper, k))
}
