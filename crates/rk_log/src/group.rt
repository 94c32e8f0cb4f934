// Groups of batches, and what reads them from bytes.
ghost use Rattle.std.specs.Prelude.{◌≡◌, IfOk};
ghost use Rattle.rk_pieces.specs.Pieces.{big_at, cut};
ghost use Rattle.rk_batch.specs.Reading.{GivesAs};
ghost use Rattle.rk_log.specs.Batches.{batch_of};
ghost use Rattle.rk_log.specs.Groups.{group_of, group_end, framed_at, batches_at};

use byteorder::{BigEndian, ByteOrder};
use rk_batch::{Batch, BatchError};
use rk_outside::NoMemory;
use std::alloc::Global;
use std::marker::Model;

/// Batches that were written together, and the number of their first operation. Contracts see the lists of the batches'
/// operations.
#[derive(Debug, Drop)]
pub struct Group {
    pub first: u64,
    pub batches: Vec<Batch>,
}

impl Model for Group {
    ghost use Rattle.rk_log.specs.Groups.{GroupSeen};

    ghost Value = { GroupSeen };

    ghost view = { λ g. record { first = g.first; batches = g.batches.items } };
}

/// A group of a log, and the place of its record.
#[derive(Debug, Drop)]
pub struct Logged {
    /// Where the record's gate byte stands in the file.
    pub at: u64,
    pub group: Group,
}

impl Group {
    /// The group that a payload spells, and `None` where it spells none.
    ///
    /// # Errors
    ///
    /// `NoMemory` where a batch or the list of them finds none.
    #[tactic(auto, using(crate::proofs::Reading::whole_none, crate::proofs::Reading::whole_some), unfolding(crate::specs::Groups::group_of))]
    pub fn decode(alloc: Global, payload: &[u8]) -> Result<Option<Group>, NoMemory>
        ensures { IfOk result (λ group. group ≡ group_of payload.now) }
    {
        let Some((first, rest)) = number_at(payload) else {
            return Ok(None);
        };
        let Some((count, rest)) = length_at(rest) else {
            return Ok(None);
        };
        if count == 0 {
            return Ok(None);
        }
        let Some((batches, rest)) = batches_at(alloc, count, rest)? else {
            return Ok(None);
        };
        if !rest.is_empty() {
            return Ok(None);
        }
        Ok(Some(Group { first, batches }))
    }

    /// The number behind that of its last operation, which may be above any `u64`.
    pub(crate) fn end(&self) -> u128
        ensures { result ≡ group_end self.now }
    {
        let mut end = u128::from(self.first);
        for batch in &self.batches {
            end += u128::from(batch.count());
        }
        end
    }
}

/// So many batches, each behind its length, and the bytes after them.
fn batches_at(
    alloc: Global,
    count: u32,
    bytes: &[u8],
) -> Result<Option<(Vec<Batch>, &[u8])>, NoMemory>
    ensures { IfOk result (λ found. GivesAs (λ x. (x.0.items, x.1.now)) found (batches_at count bytes.now)) }
{
    let mut rest = bytes;
    let mut batches = Vec::new(alloc);
    for _ in 0..count {
        let Some((batch, after)) = framed_at(alloc, rest)? else {
            return Ok(None);
        };
        batches.push(batch)?;
        rest = after;
    }
    Ok(Some((batches, rest)))
}

/// The batch behind its length, and the bytes after it.
#[tactic(auto, unfolding(crate::specs::Groups::framed_at))]
fn framed_at(alloc: Global, bytes: &[u8]) -> Result<Option<(Batch, &[u8])>, NoMemory>
    ensures { IfOk result (λ found. GivesAs (λ x. (x.0, x.1.now)) found (framed_at bytes.now)) }
{
    let Some((len, rest)) = length_at(bytes) else {
        return Ok(None);
    };
    let Some((piece, rest)) = cut(rest, len as usize) else {
        return Ok(None);
    };
    let Some(batch) = batch_of(alloc, piece)? else {
        return Ok(None);
    };
    Ok(Some((batch, rest)))
}

/// The batch of these bytes, and `None` where they are none.
fn batch_of(alloc: Global, bytes: &[u8]) -> Result<Option<Batch>, NoMemory>
    ensures { IfOk result (λ batch. batch ≡ batch_of bytes.now) }
{
    match Batch::decode(alloc, bytes) {
        Ok(batch) => Ok(Some(batch)),
        Err(error) => match error {
            BatchError::Memory => Err(NoMemory),
            _ => Ok(None),
        },
    }
}

/// The number in eight bytes, and the bytes after it.
fn number_at(bytes: &[u8]) -> Option<(u64, &[u8])>
    ensures { GivesAs (λ x. (x.0, x.1.now)) result (big_at 8 bytes.now) }
{
    if bytes.len() < 8 {
        return None;
    }
    Some((BigEndian::read_u64(bytes), &bytes[8..]))
}

/// The length or count in four bytes, and the bytes after it.
fn length_at(bytes: &[u8]) -> Option<(u32, &[u8])>
    ensures { GivesAs (λ x. (x.0, x.1.now)) result (big_at 4 bytes.now) }
{
    if bytes.len() < 4 {
        return None;
    }
    Some((BigEndian::read_u32(bytes), &bytes[4..]))
}

/// So many bytes, and those after them.
fn cut(bytes: &[u8], len: usize) -> Option<(&[u8], &[u8])>
    ensures { GivesAs (λ x. (x.0.now, x.1.now)) result (cut len bytes.now) }
{
    if bytes.len() < len {
        return None;
    }
    Some(bytes.split_at(len))
}
