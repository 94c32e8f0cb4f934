// Operations read from bytes, before their parts are tested.
ghost use Rattle.std.specs.Prelude.{◌≡◌};
ghost use Rattle.rk_batch.specs.Reading.{GivesAs, op_of, cut, short_at, number_at, long_at, put_at, del_at, range_set_at, range_unset_at, range_del_at, fields_at, op_at};

use crate::kinds::{DEL, PUT, RANGE_DEL, RANGE_SET, RANGE_UNSET};
use byteorder::{BigEndian, ByteOrder};

/// The parts of an operation.
pub(crate) enum RawOp<'a> {
    Put {
        key: &'a [u8],
        value: &'a [u8],
    },
    Del {
        key: &'a [u8],
    },
    RangeSet {
        start: &'a [u8],
        end: &'a [u8],
        suffix: &'a [u8],
        value: &'a [u8],
    },
    RangeUnset {
        start: &'a [u8],
        end: &'a [u8],
        suffix: &'a [u8],
    },
    RangeDel {
        start: &'a [u8],
        end: &'a [u8],
    },
}

/// The operation at the front, and the bytes after it.
pub(crate) fn op_at(bytes: &[u8]) -> Option<(RawOp<'_>, &[u8])>
    ensures { GivesAs (λ x. (op_of x.0, x.1.now)) result (op_at bytes.now) }
{
    let (kind, rest) = bytes.split_first()?;
    fields_at(*kind, rest)
}

/// The operation of a kind.
#[tactic(auto, unfolding(crate::specs::Reading::fields_at))]
fn fields_at(kind: u8, bytes: &[u8]) -> Option<(RawOp<'_>, &[u8])>
    ensures { GivesAs (λ x. (op_of x.0, x.1.now)) result (fields_at kind bytes.now) }
{
    match kind {
        PUT => put_at(bytes),
        DEL => del_at(bytes),
        RANGE_SET => range_set_at(bytes),
        RANGE_UNSET => range_unset_at(bytes),
        RANGE_DEL => range_del_at(bytes),
        _ => None,
    }
}

#[tactic(auto, unfolding(crate::specs::Reading::put_at))]
fn put_at(bytes: &[u8]) -> Option<(RawOp<'_>, &[u8])>
    ensures { GivesAs (λ x. (op_of x.0, x.1.now)) result (put_at bytes.now) }
{
    let (key, rest) = short_at(bytes)?;
    let (value, rest) = long_at(rest)?;
    Some((RawOp::Put { key, value }, rest))
}

#[tactic(auto, unfolding(crate::specs::Reading::del_at))]
fn del_at(bytes: &[u8]) -> Option<(RawOp<'_>, &[u8])>
    ensures { GivesAs (λ x. (op_of x.0, x.1.now)) result (del_at bytes.now) }
{
    let (key, rest) = short_at(bytes)?;
    Some((RawOp::Del { key }, rest))
}

#[tactic(auto, unfolding(crate::specs::Reading::range_set_at))]
fn range_set_at(bytes: &[u8]) -> Option<(RawOp<'_>, &[u8])>
    ensures { GivesAs (λ x. (op_of x.0, x.1.now)) result (range_set_at bytes.now) }
{
    let (start, rest) = short_at(bytes)?;
    let (end, rest) = short_at(rest)?;
    let (suffix, rest) = short_at(rest)?;
    let (value, rest) = long_at(rest)?;
    let op = RawOp::RangeSet {
        start,
        end,
        suffix,
        value,
    };
    Some((op, rest))
}

#[tactic(auto, unfolding(crate::specs::Reading::range_unset_at))]
fn range_unset_at(bytes: &[u8]) -> Option<(RawOp<'_>, &[u8])>
    ensures { GivesAs (λ x. (op_of x.0, x.1.now)) result (range_unset_at bytes.now) }
{
    let (start, rest) = short_at(bytes)?;
    let (end, rest) = short_at(rest)?;
    let (suffix, rest) = short_at(rest)?;
    Some((RawOp::RangeUnset { start, end, suffix }, rest))
}

#[tactic(auto, unfolding(crate::specs::Reading::range_del_at))]
fn range_del_at(bytes: &[u8]) -> Option<(RawOp<'_>, &[u8])>
    ensures { GivesAs (λ x. (op_of x.0, x.1.now)) result (range_del_at bytes.now) }
{
    let (start, rest) = short_at(bytes)?;
    let (end, rest) = short_at(rest)?;
    Some((RawOp::RangeDel { start, end }, rest))
}

/// The bytes behind a length of one byte, and those after them.
fn short_at(bytes: &[u8]) -> Option<(&[u8], &[u8])>
    ensures { GivesAs (λ x. (x.0.now, x.1.now)) result (short_at bytes.now) }
{
    let (len, rest) = bytes.split_first()?;
    cut(rest, usize::from(*len))
}

/// The bytes behind a length of two bytes, and those after them.
#[tactic(auto, unfolding(crate::specs::Reading::long_at))]
fn long_at(bytes: &[u8]) -> Option<(&[u8], &[u8])>
    ensures { GivesAs (λ x. (x.0.now, x.1.now)) result (long_at bytes.now) }
{
    let (len, rest) = number_at(bytes)?;
    cut(rest, usize::from(len))
}

/// The number in two bytes, and the bytes after it.
pub(crate) fn number_at(bytes: &[u8]) -> Option<(u16, &[u8])>
    ensures { GivesAs (λ x. (x.0, x.1.now)) result (number_at bytes.now) }
{
    if bytes.len() < 2 {
        return None;
    }
    Some((BigEndian::read_u16(bytes), &bytes[2..]))
}

/// So many bytes, and those after them.
fn cut(bytes: &[u8], len: usize) -> Option<(&[u8], &[u8])>
    ensures { GivesAs (λ x. (x.0.now, x.1.now)) result (cut len bytes.now) }
{
    if bytes.len() < len {
        return None;
    }
    Some(bytes.split_at(len))
}
