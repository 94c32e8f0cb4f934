// Range keys by falling numbers.
ghost use Rattle.std.specs.Prelude.{◌≡◌, ◌≤◌, nat_lt, true, false, [], ◌∷◌, ◌++◌, length, IfOk, OnOk, OnErr};
ghost use Rattle.std.specs.List.Sorted.{IsPartitionPoint};
ghost use Rattle.rk_model.specs.Lists.{none_of};
ghost use Rattle.rk_fragment.specs.Fragments.{range_key, insert_newest, FallsBy};

use rk_key::{Suffix, read_suffix};
use rk_model::{Entry, Op, RangeKey, RangeKeys, RangeKind};
use rk_outside::{Bytes, NoMemory};
use std::alloc::Global;
use std::marker::Model;

/// Range keys, newest first. Contracts see the list.
#[derive(Debug, Drop)]
pub struct NewestFirst {
    keys: Vec<RangeKey>,
}

impl Model for NewestFirst {
    ghost use Rattle.std.specs.Prelude.{◌≤◌, List};
    ghost use Rattle.rk_fragment.specs.Fragments.{FallsBy};
    ghost use Rattle.rk_model.specs.declared.span.RangeKey.{RangeKey};

    ghost Value = { List RangeKey };

    ghost view = { λ k. k.keys.items };

    ghost invariant = { λ k. FallsBy (λ m n. m ≤ n) k.keys.items };
}

impl NewestFirst {
    /// No range keys yet. It takes no memory.
    pub fn new(alloc: Global) -> NewestFirst
        ensures { result ≡ [] }
    {
        NewestFirst {
            keys: Vec::new(alloc),
        }
    }

    /// Whether there are none.
    pub fn has_none(&self) -> bool
        ensures { result ≡ none_of self.now }
    {
        matches!(self.keys.as_slice(), [])
    }

    /// Puts a key before the first that isn't newer.
    ///
    /// # Errors
    ///
    /// `NoMemory`.
    pub fn insert(&mut self, key: RangeKey) -> Result<(), NoMemory>
        ensures ok { OnOk result (self.new ≡ insert_newest key self.old) }
        ensures err { OnErr result (self.new ≡ self.old) }
    {
        let at = count_newer(&self.keys, &key);
        self.keys.insert(at, key)?;
        Ok(())
    }

    /// The range keys of a span.
    pub fn into_keys(self) -> RangeKeys
        ensures { result ≡ self }
    {
        RangeKeys::from_vec(self.keys)
    }
}

/// Range keys, each behind those that were pushed before. Contracts see the list.
#[derive(Debug, Drop)]
pub(crate) struct KeyList {
    keys: Vec<RangeKey>,
}

impl Model for KeyList {
    ghost use Rattle.std.specs.Prelude.{List};
    ghost use Rattle.rk_model.specs.declared.span.RangeKey.{RangeKey};

    ghost Value = { List RangeKey };

    ghost view = { λ k. k.keys.items };
}

impl KeyList {
    /// No range keys yet. It takes no memory.
    pub(crate) fn new(alloc: Global) -> KeyList
        ensures { result ≡ [] }
    {
        KeyList {
            keys: Vec::new(alloc),
        }
    }

    /// Makes room for so many more, and no more than that.
    pub(crate) fn reserve(&mut self, count: usize) -> Result<(), NoMemory>
        ensures { OnOk result (self.new ≡ self.old) }
    {
        self.keys.reserve_exact(count)?;
        Ok(())
    }

    /// Whether there are none.
    pub(crate) fn has_none(&self) -> bool
        ensures { result ≡ none_of self.now }
    {
        matches!(self.keys.as_slice(), [])
    }

    /// Puts a key behind the others.
    pub(crate) fn push(&mut self, key: RangeKey) -> Result<(), NoMemory>
        ensures { OnOk result (self.new ≡ self.old ++ key ∷ []) }
    {
        self.keys.push(key)?;
        Ok(())
    }

    /// The range keys of a span.
    pub(crate) fn into_keys(self) -> RangeKeys
        ensures { result ≡ self }
    {
        RangeKeys::from_vec(self.keys)
    }
}

/// How many of the keys, which are newest first, are newer.
fn count_newer(keys: &[RangeKey], key: &RangeKey) -> usize
    requires { FallsBy (λ m n. m ≤ n) keys.now }
    ensures within { result ≤ length keys.now }
    ensures newer { IsPartitionPoint (λ q. nat_lt key.now.seq q.seq ≡ true) (λ q. nat_lt key.now.seq q.seq ≡ false) keys.now result }
{
    keys.partition_point(|q| key.seq < q.seq)
}

/// The suffix of a range key that has none.
fn no_suffix(alloc: Global) -> Suffix
    ensures { result ≡ [] }
{
    read_suffix(alloc, b"").unwrap()
}

fn no_value(alloc: Global) -> Bytes
    ensures { result ≡ [] }
{
    Bytes::from_vec(Vec::new(alloc))
}

/// The range key of an entry.
pub(crate) fn range_key(alloc: Global, entry: &Entry) -> Result<Option<RangeKey>, NoMemory>
    ensures { IfOk result (λ key. key ≡ range_key entry.now.seq entry.now.op) }
{
    match &entry.op {
        Op::Put { .. } | Op::Del { .. } => Ok(None),
        Op::RangeSet { suffix, value, .. } => Ok(Some(RangeKey {
            kind: RangeKind::Set,
            seq: entry.seq,
            suffix: suffix.copy(),
            value: value.copy()?,
        })),
        Op::RangeUnset { suffix, .. } => Ok(Some(RangeKey {
            kind: RangeKind::Unset,
            seq: entry.seq,
            suffix: suffix.copy(),
            value: no_value(alloc),
        })),
        Op::RangeDel { .. } => Ok(Some(RangeKey {
            kind: RangeKind::Del,
            seq: entry.seq,
            suffix: no_suffix(alloc),
            value: no_value(alloc),
        })),
    }
}
