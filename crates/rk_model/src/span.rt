ghost use Rattle.std.specs.Prelude.{◌≡◌, IfOk};

use crate::copies::copy_key;
use rk_key::{Suffix, UserKey};
use rk_outside::{Bytes, NoMemory};
use std::marker::Model;

/// What a range key does.
#[derive(Clone, Copy, Debug, PartialEq, Eq)]
pub enum RangeKind {
    Set,
    Unset,
    Del,
}

/// A range key of a span. The suffix and the value that a kind doesn't have are empty.
#[derive(Debug, Drop)]
pub struct RangeKey {
    pub kind: RangeKind,
    pub seq: u64,
    pub suffix: Suffix,
    pub value: Bytes,
}

impl RangeKey {
    /// An equal range key.
    ///
    /// # Errors
    ///
    /// `NoMemory` where its value finds no memory.
    pub fn copy(&self) -> Result<RangeKey, NoMemory>
        ensures { IfOk result (λ key. key ≡ self.now) }
    {
        Ok(RangeKey {
            kind: self.kind,
            seq: self.seq,
            suffix: self.suffix.copy(),
            value: self.value.copy()?,
        })
    }
}

/// The range keys of a span. Contracts see the list.
#[derive(Debug, Drop)]
pub struct RangeKeys {
    keys: Vec<RangeKey>,
}

impl Model for RangeKeys {
    ghost use Rattle.std.specs.Prelude.{List};
    ghost use Rattle.rk_model.specs.declared.span.RangeKey.{RangeKey};

    ghost Value = { List RangeKey };

    ghost view = { λ k. k.keys.items };
}

impl RangeKeys {
    /// The range keys of a vector, which is kept as it is. It takes no memory.
    pub fn from_vec(keys: Vec<RangeKey>) -> RangeKeys
        ensures { result ≡ keys.items }
    {
        RangeKeys { keys }
    }

    /// Gives the vector back. It takes no memory.
    pub fn into_vec(self) -> Vec<RangeKey>
        ensures { result.items ≡ self }
    {
        self.keys
    }

    /// Lends the range keys.
    pub fn as_slice(&self) -> &[RangeKey]
        ensures { result.now ≡ self.now }
    {
        &self.keys
    }

    /// Equal range keys.
    ///
    /// # Errors
    ///
    /// `NoMemory` where the list or a value finds no memory.
    pub fn copy(&self) -> Result<RangeKeys, NoMemory>
        ensures { IfOk result (λ keys. keys ≡ self.now) }
    {
        let keys = self.as_slice();
        let mut copied = Vec::new(*self.keys.allocator());
        for key in keys {
            copied.push(key.copy()?)?;
        }
        Ok(RangeKeys::from_vec(copied))
    }
}

/// The keys from `start` up to `end`, without `end`, and the range keys over them.
#[derive(Debug, Drop)]
pub struct Span {
    pub start: UserKey,
    pub end: UserKey,
    pub keys: RangeKeys,
}

impl Span {
    /// An equal span.
    ///
    /// # Errors
    ///
    /// `NoMemory` where an end or the range keys find no memory.
    pub fn copy(&self) -> Result<Span, NoMemory>
        ensures { IfOk result (λ span. span ≡ self.now) }
    {
        Ok(Span {
            start: copy_key(&self.start)?,
            end: copy_key(&self.end)?,
            keys: self.keys.copy()?,
        })
    }
}

/// A pair of a cover: what a range key set put, and under which suffix.
#[derive(Debug, Drop)]
pub struct SuffixValue {
    pub suffix: Suffix,
    pub value: Bytes,
}

impl SuffixValue {
    /// An equal pair.
    ///
    /// # Errors
    ///
    /// `NoMemory` where its value finds no memory.
    pub fn copy(&self) -> Result<SuffixValue, NoMemory>
        ensures { IfOk result (λ pair. pair ≡ self.now) }
    {
        Ok(SuffixValue {
            suffix: self.suffix.copy(),
            value: self.value.copy()?,
        })
    }
}
