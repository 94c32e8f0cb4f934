//! The order of entries.
ghost use Rattle.std.specs.Prelude.{◌≡◌};
ghost use Rattle.rk_model.specs.Sources.{op_key, entry_cmp};

use crate::{Entry, Op};
use rk_key::UserKey;
use std::cmp::Ordering;

impl Op {
    /// The key of a point, and the start of a span.
    pub fn key(&self) -> &UserKey
        ensures { result.now ≡ op_key self.now }
    {
        match self {
            Op::Put { key, .. } | Op::Del { key } => key,
            Op::RangeSet { start, .. }
            | Op::RangeUnset { start, .. }
            | Op::RangeDel { start, .. } => start,
        }
    }
}

/// The order of a source of points: by key, and the newer one of one key first.
pub fn compare_entries(e: &Entry, f: &Entry) -> Ordering
    ensures { result ≡ entry_cmp e.now f.now }
{
    e.op.key().cmp(f.op.key()).then(f.seq.cmp(&e.seq))
}
