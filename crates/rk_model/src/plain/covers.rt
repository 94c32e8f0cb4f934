// What a list of entries gives at a key: the point's value, and the cover.
ghost use Rattle.std.specs.Prelude.{◌≡◌, ◌&&◌, nat_lt, filter, IfOk};
ghost use Rattle.std.specs.List.{list_any};
ghost use Rattle.std.specs.Option.{option_copied};
ghost use Rattle.rk_model.specs.Operations.{within, is_over};
ghost use Rattle.rk_model.specs.Covers.{over, newest, is_point, put_value, point, ends_set, standing, cover};

use crate::plain::cover::Cover;
use crate::{Entry, Op, SuffixValue};
use rk_key::{Suffix, UserKey};
use rk_outside::{Bytes, NoMemory};
use std::alloc::Global;

/// Whether `start <= key < end`.
#[tactic(auto, using(crate::proofs::Orders::is_ge_is))]
fn within(start: &UserKey, end: &UserKey, key: &UserKey) -> bool
    ensures { result ≡ within start.now end.now key.now }
{
    *key >= *start && *key < *end
}

impl Op {
    /// Whether it is over a key.
    pub(crate) fn is_over(&self, x: &UserKey) -> bool
        ensures { result ≡ is_over x.now self.now }
    {
        match self {
            Op::Put { key, .. } | Op::Del { key } => key.cmp(x).is_eq(),
            Op::RangeSet { start, end, .. }
            | Op::RangeUnset { start, end, .. }
            | Op::RangeDel { start, end } => within(start, end, x),
        }
    }

    /// Whether it is a put or a del.
    pub fn is_point(&self) -> bool
        ensures { result ≡ is_point self.now }
    {
        matches!(self, Op::Put { .. } | Op::Del { .. })
    }

    /// The value of a put.
    pub fn put_value(&self) -> Option<&Bytes>
        ensures { option_copied result ≡ put_value self.now }
    {
        match self {
            Op::Put { value, .. } => Some(value),
            _ => None,
        }
    }

    /// Whether it takes away what an older set put under a suffix.
    pub(crate) fn ends_set(&self, s: &Suffix) -> bool
        ensures { result ≡ ends_set s.now self.now }
    {
        match self {
            Op::Put { .. } | Op::Del { .. } => false,
            Op::RangeSet { suffix, .. } | Op::RangeUnset { suffix, .. } => suffix.cmp(s).is_eq(),
            Op::RangeDel { .. } => true,
        }
    }
}

/// Whether a put or a del on the key has a number above `n`.
fn has_newer_point(entries: &[Entry], x: &UserKey, n: u64) -> bool
    ensures { result ≡ list_any (λ f. is_over x.now f.op && is_point f.op && nat_lt n f.seq) entries.now }
{
    entries
        .iter()
        .any(|f| f.op.is_over(x) && f.op.is_point() && n < f.seq)
}

/// The newest put or del on the key.
fn newest_point<'a>(entries: &'a [Entry], x: &UserKey) -> Option<&'a Entry>
    ensures { option_copied result ≡ newest (filter (λ e. is_point e.op) (over x.now entries.now)) }
{
    entries.iter().find(|e| e.op.is_over(x)
        && e.op.is_point()
        && !has_newer_point(entries, x, e.seq))
}

/// The value of the newest put or del on the key, where that is a put.
pub(crate) fn point<'a>(entries: &'a [Entry], x: &UserKey) -> Option<&'a Bytes>
    ensures { option_copied result ≡ point entries.now x.now }
{
    match newest_point(entries, x) {
        Some(e) => e.op.put_value(),
        None => None,
    }
}

/// Whether an entry over the key, newer than `n`, takes away what was put under the suffix.
fn is_ended(entries: &[Entry], x: &UserKey, suffix: &Suffix, n: u64) -> bool
    ensures { result ≡ list_any (λ f. nat_lt n f.seq && ends_set suffix.now f.op) (over x.now entries.now) }
{
    entries
        .iter()
        .any(|f| n < f.seq && f.op.ends_set(suffix) && f.op.is_over(x))
}

/// What an entry over the key put there, unless a newer one ended it.
fn standing(entries: &[Entry], x: &UserKey, e: &Entry) -> Result<Option<SuffixValue>, NoMemory>
    ensures { IfOk result (λ pair. pair ≡ standing (over x.now entries.now) e.now.seq e.now.op) }
{
    match &e.op {
        Op::RangeSet { suffix, value, .. } => {
            if is_ended(entries, x, suffix, e.seq) {
                return Ok(None);
            }
            Ok(Some(SuffixValue {
                suffix: suffix.copy(),
                value: value.copy()?,
            }))
        }
        _ => Ok(None),
    }
}

/// The pairs that hold at the key, ascending by suffix.
pub(crate) fn cover(alloc: Global, entries: &[Entry], x: &UserKey) -> Result<Cover, NoMemory>
    ensures { IfOk result (λ c. c ≡ cover entries.now x.now) }
{
    let mut pairs = Cover::new(alloc);
    for i in (0..entries.len()).rev() {
        let e = &entries[i];
        if e.op.is_over(x) {
            if let Some(pair) = standing(entries, x, e)? {
                pairs.insert(pair)?;
            }
        }
    }
    Ok(pairs)
}
