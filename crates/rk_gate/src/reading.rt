// The records of a journal's bytes.
ghost use Rattle.std.specs.Prelude.{◌≡◌, ◌≤◌, ℕ, Ok, Err, Some, None, length, drop, if◌then◌else◌, IfOk, IfErr, IfSome, IfNone, true, false};
ghost use Rattle.rk_gate.specs.Calls.{IsReadRefusal};
ghost use Rattle.rk_gate.specs.Reading.{IsFront};
ghost use Rattle.rk_gate.specs.Records.{recovered, gate_behind, is_whole, payload_of};

use crate::Record;
use byteorder::{BigEndian, ByteOrder};
use rk_outside::{Bytes, StoreError};
use std::alloc::Global;

/// The gate byte of an open record.
pub(crate) const OPEN: u8 = 1;

/// A gate byte that ends the records.
pub(crate) const CLOSED: u8 = 0;

/// The bytes of a record before its payload: the gate and the length.
pub(crate) const HEAD_BYTES: u64 = 9;

/// What stands at the front of bytes.
pub(crate) enum Front<'a> {
    /// An open record with this payload, and a byte behind it.
    Open(&'a [u8]),
    /// A closed gate.
    Closed,
    /// No byte, or an open gate without a whole record, or without a byte behind it.
    Bad,
}

/// What stands at the front of these bytes.
pub(crate) fn read_front(bytes: &[u8]) -> Front<'_>
    ensures { IsFront result bytes.now }
{
    let Some((gate, rest)) = bytes.split_first() else {
        return Front::Bad;
    };
    if *gate != OPEN {
        return Front::Closed;
    }
    match payload(rest) {
        Some(payload) => Front::Open(payload),
        None => Front::Bad,
    }
}

/// The payload of a record by the bytes behind its gate, where it is whole and a byte follows it.
fn payload(bytes: &[u8]) -> Option<&[u8]>
    ensures whole { IfSome result (λ payload. (is_whole bytes.now ≡ true) × (payload.now ≡ payload_of bytes.now)) }
    ensures none { IfNone result (is_whole bytes.now ≡ false) }
{
    if bytes.len() < 8 {
        return None;
    }
    let len = BigEndian::read_u64(bytes);
    let behind = &bytes[8..];
    if len >= behind.len() as u64 {
        return None;
    }
    Some(&behind[..len as usize])
}

/// The open records, and where the closed gate behind them stands.
///
/// # Errors
///
/// `BadRecord` at the first record that is not whole or that no byte follows, and `Memory`.
pub(crate) fn read_records(
    alloc: Global,
    file: u64,
    bytes: &[u8],
) -> Result<(Vec<Record>, u64), StoreError>
    ensures records { IfOk result (λ r. recovered bytes.now ≡ Ok r.0.items) }
    ensures gate { IfOk result (λ r. r.1 ≡ gate_behind r.0.items) }
    ensures refusal { (count : ℕ) → IfErr result (IsReadRefusal file (λ at. recovered bytes.now ≡ Err at) count count) }
{
    let mut records = Vec::new(alloc);
    let mut at = 0;
    loop {
        match read_front(&bytes[at..]) {
            Front::Open(payload) => {
                records.push(Record {
                    at: at as u64,
                    payload: Bytes::from_slice(alloc, payload)?,
                })?;
                at += HEAD_BYTES as usize + payload.len();
            }
            Front::Closed => return Ok((records, at as u64)),
            Front::Bad => {
                return Err(StoreError::BadRecord {
                    file,
                    at: at as u64,
                });
            }
        }
    }
}
