// A slow and plain reading of the format, which says where bytes stop to be a batch.
use rk_key::{read_key, read_suffix};
use std::alloc::Global;

/// Where the bytes stop to be a batch, if they are none.
pub(super) fn bad_place(alloc: Global, bytes: &[u8]) -> Option<usize> {
    let [1, high, low, ops @ ..] = bytes else {
        return Some(0);
    };
    let count = u16::from_be_bytes([*high, *low]);
    if !(1..=1_000).contains(&count) {
        return Some(0);
    }
    let mut rest = ops;
    for _ in 0..count {
        match behind_op(alloc, rest) {
            Some(after) => rest = after,
            None => return Some(bytes.len().saturating_sub(rest.len())),
        }
    }
    if rest.is_empty() {
        None
    } else {
        Some(bytes.len().saturating_sub(rest.len()))
    }
}

/// The bytes behind the operation at the front.
fn behind_op(alloc: Global, bytes: &[u8]) -> Option<&[u8]> {
    let (kind, rest) = bytes.split_first()?;
    let (first, rest) = short(rest)?;
    let key = read_key(alloc, first).ok()?;
    match kind {
        1 => return behind_value(rest),
        2 => return Some(rest),
        _ => {}
    }
    let (second, rest) = short(rest)?;
    let end = read_key(alloc, second).ok()?;
    if !key.suffix().is_empty() || !end.suffix().is_empty() || key >= end {
        return None;
    }
    match kind {
        3 => behind_value(behind_suffix(alloc, rest)?),
        4 => behind_suffix(alloc, rest),
        5 => Some(rest),
        _ => None,
    }
}

fn behind_suffix(alloc: Global, bytes: &[u8]) -> Option<&[u8]> {
    let (suffix, rest) = short(bytes)?;
    read_suffix(alloc, suffix).ok()?;
    Some(rest)
}

fn behind_value(bytes: &[u8]) -> Option<&[u8]> {
    let [high, low, rest @ ..] = bytes else {
        return None;
    };
    let len = u16::from_be_bytes([*high, *low]);
    if len > 32_768 {
        return None;
    }
    rest.get(usize::from(len)..)
}

fn short(bytes: &[u8]) -> Option<(&[u8], &[u8])> {
    let (len, rest) = bytes.split_first()?;
    rest.split_at_checked(usize::from(*len))
}
