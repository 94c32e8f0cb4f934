ghost use Rattle.std.specs.Prelude.{◌≡◌, IfOk, IsTrue, MatchOption, [], ◌∷◌};
ghost use Rattle.rk_model.specs.Items.{has_keys};
ghost use Rattle.rk_model.specs.Spans.{op_ends};

use crate::copies::{copy_key, copy_key_into};
use rk_key::{Suffix, UserKey};
use rk_outside::{Bytes, NoMemory};

/// An operation on a point, or on the range keys of the span from `start` up to `end`, without `end`.
#[derive(Debug, Drop)]
pub enum Op {
    /// Sets a point.
    Put {
        key: UserKey,
        value: Bytes,
    },
    /// Deletes a point.
    Del {
        key: UserKey,
    },
    /// Puts a value under a suffix on each key of the span.
    RangeSet {
        start: UserKey,
        end: UserKey,
        suffix: Suffix,
        value: Bytes,
    },
    /// Removes what was put under exactly this suffix, over the span only.
    RangeUnset {
        start: UserKey,
        end: UserKey,
        suffix: Suffix,
    },
    /// Removes all range keys of the span.
    RangeDel {
        start: UserKey,
        end: UserKey,
    },
}

impl Op {
    /// An equal operation. Its keys are keys.
    ///
    /// # Errors
    ///
    /// `NoMemory` where a key or the value finds no memory.
    pub fn copy(&self) -> Result<Op, NoMemory>
        ensures value { IfOk result (λ op. op ≡ self.now) }
        ensures keys { IfOk result (λ op. IsTrue (has_keys op)) }
    {
        match self {
            Op::Put { key, value } => Ok(Op::Put {
                key: copy_key(key)?,
                value: value.copy()?,
            }),
            Op::Del { key } => Ok(Op::Del {
                key: copy_key(key)?,
            }),
            Op::RangeSet {
                start,
                end,
                suffix,
                value,
            } => Ok(Op::RangeSet {
                start: copy_key(start)?,
                end: copy_key(end)?,
                suffix: suffix.copy(),
                value: value.copy()?,
            }),
            Op::RangeUnset { start, end, suffix } => Ok(Op::RangeUnset {
                start: copy_key(start)?,
                end: copy_key(end)?,
                suffix: suffix.copy(),
            }),
            Op::RangeDel { start, end } => Ok(Op::RangeDel {
                start: copy_key(start)?,
                end: copy_key(end)?,
            }),
        }
    }

    /// An equal operation. That of a put is made in the memory of an old put.
    ///
    /// # Errors
    ///
    /// `NoMemory` where a key or the value finds no memory. The old one is gone.
    pub fn copy_into(&self, old: Op) -> Result<Op, NoMemory>
        ensures { IfOk result (λ op. op ≡ self.now) }
    {
        match (self, old) {
            (
                Op::Put { key, value },
                Op::Put {
                    key: old_key,
                    value: old_value,
                },
            ) => Ok(Op::Put {
                key: copy_key_into(key, old_key)?,
                value: value.copy_into(old_value)?,
            }),
            _ => self.copy(),
        }
    }

    /// The start and the end of an operation on a span. It takes no memory.
    pub fn ends(&self) -> Option<(&UserKey, &UserKey)>
        ensures { MatchOption result (op_ends self.now ≡ []) (λ ends. op_ends self.now ≡ ends.0.now ∷ ends.1.now ∷ []) }
    {
        match self {
            Op::Put { .. } | Op::Del { .. } => None,
            Op::RangeSet { start, end, .. }
            | Op::RangeUnset { start, end, .. }
            | Op::RangeDel { start, end } => Some((start, end)),
        }
    }
}

/// An operation and its sequence number.
#[derive(Debug, Drop)]
pub struct Entry {
    pub op: Op,
    pub seq: u64,
}

impl Entry {
    /// An equal entry. Its keys are keys.
    ///
    /// # Errors
    ///
    /// `NoMemory` where its operation finds no memory.
    pub fn copy(&self) -> Result<Entry, NoMemory>
        ensures value { IfOk result (λ entry. entry ≡ self.now) }
        ensures keys { IfOk result (λ entry. IsTrue (has_keys entry.op)) }
    {
        Ok(Entry {
            op: self.op.copy()?,
            seq: self.seq,
        })
    }

    /// An equal entry. That of a put is made in the memory of an old put.
    ///
    /// # Errors
    ///
    /// `NoMemory` where its operation finds no memory. The old one is gone.
    pub fn copy_into(&self, old: Entry) -> Result<Entry, NoMemory>
        ensures { IfOk result (λ entry. entry ≡ self.now) }
    {
        Ok(Entry {
            op: self.op.copy_into(old.op)?,
            seq: self.seq,
        })
    }
}
