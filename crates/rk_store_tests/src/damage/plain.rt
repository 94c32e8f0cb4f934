// A slow and plain reading of a journal's bytes.
use rk_gate::Record;
use rk_outside::{Bytes, NoMemory};
use std::alloc::Global;

// What stands at the front of bytes.
#[derive(Drop)]
enum Front<'a> {
    // The payload of an open record, and the bytes behind it.
    Record(&'a [u8], &'a [u8]),
    Tail,
    Bad,
}

/// The records of these bytes, or the place of the first that is none.
pub(super) fn records(alloc: Global, bytes: &[u8]) -> Result<Result<Vec<Record>, u64>, NoMemory> {
    let mut records = Vec::new(alloc);
    let mut rest = bytes;
    for _ in 0..=bytes.len() {
        let at = bytes.len().saturating_sub(rest.len()) as u64;
        match front_of(rest) {
            Front::Record(payload, behind) => {
                let payload = Bytes::from_slice(alloc, payload)?;
                records.push(Record { at, payload })?;
                rest = behind;
            }
            Front::Tail => return Ok(Ok(records)),
            Front::Bad => return Ok(Err(at)),
        }
    }
    Ok(Err(0))
}

fn front_of(bytes: &[u8]) -> Front<'_> {
    match bytes {
        [] => Front::Bad,
        [1, record @ ..] => open_record(record).unwrap_or(Front::Bad),
        _ => Front::Tail,
    }
}

// By the bytes behind its gate: a length, so many bytes, and one more at least.
fn open_record(bytes: &[u8]) -> Option<Front<'_>> {
    let (len, rest) = bytes.split_at_checked(8)?;
    let len = len
        .iter()
        .fold(0_u64, |sum, byte| (sum << 8) | u64::from(*byte));
    let (payload, behind) = rest.split_at_checked(usize::try_from(len).ok()?)?;
    if behind.is_empty() {
        None
    } else {
        Some(Front::Record(payload, behind))
    }
}
