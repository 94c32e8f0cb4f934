// Lists of keys in order, each key once.
ghost use Rattle.std.specs.Prelude.{◌≡◌, ◌≤◌, OnOk, MatchResult, length};
ghost use Rattle.std.specs.List.{insert};
ghost use Rattle.std.specs.Option.{option_map_or};
ghost use Rattle.rk_model.specs.Spans.{insert_key};

use crate::copies::copy_key;
use rk_key::UserKey;
use rk_outside::NoMemory;
use std::cmp::Ordering;

/// `Ok` where the key is there, else `Err` and the place where it belongs.
fn place_of(keys: &[UserKey], x: &UserKey) -> Result<usize, usize>
    ensures { MatchResult result (λ _. insert_key x.now keys.now ≡ keys.now) (λ at. (at ≤ length keys.now) × (insert_key x.now keys.now ≡ insert keys.now at x.now)) }
{
    for (i, y) in keys.iter().enumerate() {
        match x.cmp(y) {
            Ordering::Less => return Err(i),
            Ordering::Equal => return Ok(i),
            Ordering::Greater => {}
        }
    }
    Err(keys.len())
}

/// Puts a copy of the key at its place, unless it is there.
pub(crate) fn insert_key(keys: &mut Vec<UserKey>, x: &UserKey) -> Result<(), NoMemory>
    ensures { OnOk result (keys.new.items ≡ insert_key x.now keys.old.items) }
{
    if let Err(at) = place_of(keys, x) {
        keys.insert(at, copy_key(x)?)?;
    }
    Ok(())
}

/// The same of a bound, where there is one.
pub(crate) fn insert_bound(keys: &mut Vec<UserKey>, bound: &Option<UserKey>) -> Result<(), NoMemory>
    ensures { OnOk result (keys.new.items ≡ option_map_or (λ x. insert_key x keys.old.items) bound.now keys.old.items) }
{
    if let Some(x) = bound {
        insert_key(keys, x)?;
    }
    Ok(())
}
