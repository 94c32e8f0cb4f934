// One more entry over a key, newer than those before it.
ghost use Rattle.std.specs.Prelude.{◌≡◌, ◌<◌, ◌≤◌, OnOk, OnErr, vec_len, vec_capacity};
ghost use Rattle.rk_model.specs.Covers.{insert_pair};
ghost use Rattle.rk_laws.specs.Newer.{without, with_entry, CoverAfterEntry, PointAfterEntry};

use rk_key::Suffix;
use rk_model::{Op, SuffixValue, first_greater};
use rk_outside::NoMemory;

/// The cover after one more entry, numbered above those over the key, is that of the entry and of the cover
/// before: a set replaces or inserts its suffix, an unset removes it, and a delete empties the cover.
pub fn cover_after_an_entry_is_that_of_the_cover_before()
    ensures { CoverAfterEntry }
{}

/// The value of a point after one more entry, numbered above those over the key, is that of the entry and of
/// the value before.
pub fn point_after_an_entry_is_that_of_the_point_before()
    ensures { PointAfterEntry }
{}

/// Makes of a cover what it is after one more operation over the key, newer than those that made it. After an
/// error the cover is as it was.
///
/// # Errors
///
/// `NoMemory` where the list or the value of a set finds no memory.
pub fn apply(pairs: &mut Vec<SuffixValue>, op: &Op) -> Result<(), NoMemory>
    ensures ok { OnOk result (pairs.new.items ≡ with_entry op.now pairs.old.items) }
    ensures err { OnErr result (pairs.new.items ≡ pairs.old.items) }
{
    match op {
        Op::Put { .. } | Op::Del { .. } => {}
        Op::RangeSet { suffix, value, .. } => {
            let pair = SuffixValue {
                suffix: suffix.copy(),
                value: value.copy()?,
            };
            pairs.reserve(1)?;
            remove(pairs, suffix);
            insert(pairs, pair);
        }
        Op::RangeUnset { suffix, .. } => remove(pairs, suffix),
        Op::RangeDel { .. } => pairs.clear(),
    }
    Ok(())
}

/// Removes the pair of a suffix.
fn remove(pairs: &mut Vec<SuffixValue>, suffix: &Suffix)
    ensures items { pairs.new.items ≡ without suffix.now pairs.old.items }
    ensures fewer { vec_len pairs.new ≤ vec_len pairs.old }
    ensures capacity { vec_capacity pairs.new ≡ vec_capacity pairs.old }
{
    pairs.retain(|q| !suffix.cmp(&q.suffix).is_eq());
}

/// Puts a pair before the first with a greater suffix, where there is room for one more.
fn insert(pairs: &mut Vec<SuffixValue>, pair: SuffixValue)
    requires { vec_len pairs.old < vec_capacity pairs.old }
    ensures { pairs.new.items ≡ insert_pair pair pairs.old.items }
{
    let at = first_greater(pairs, &pair).unwrap_or(pairs.len());
    pairs.insert(at, pair).unwrap();
}
