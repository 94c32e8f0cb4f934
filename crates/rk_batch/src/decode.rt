// Batches read from bytes.
ghost use Rattle.std.specs.Prelude.{◌≡◌, ◌≢◌, ℕ, List, [], ◌∷◌, ◌++◌, IfOk, IfErr, IfSome, IfNone, OnOk, OnErr, MatchResult, length};
ghost use Rattle.rk_model.specs.declared.op.Op.{Op as AnOp};
ghost use Rattle.rk_batch.specs.Encoding.{op_bytes, batch_bytes};
ghost use Rattle.rk_batch.specs.Checks.{AllPass, IsRefusal, checks};
ghost use Rattle.rk_batch.specs.Grammar.{IsBatchOf, IsDecodeRefusal};
ghost use Rattle.rk_batch.specs.Reading.{GivesAs, TakesNext, op_of, head_at};

use crate::batch::MAX_OPS;
use crate::kinds::VERSION;
use crate::raw::{RawOp, number_at, op_at};
use crate::{Batch, BatchError};
use rk_outside::NoMemory;
use std::alloc::Global;

impl Batch {
    /// The batch of these bytes.
    ///
    /// # Errors
    ///
    /// `BadBatch` exactly where the bytes are no batch, and `Memory`.
    pub fn decode(alloc: Global, bytes: &[u8]) -> Result<Batch, BatchError>
        ensures ok { IfOk result (IsBatchOf bytes.now) }
        ensures refusal { IfErr result (IsDecodeRefusal bytes.now) }
        ensures only { (ops : List AnOp) → IsBatchOf bytes.now ops → MatchResult result (λ batch. batch ≡ ops) (λ e. e ≡ BatchError.Memory) }
    {
        let Some((count, mut rest)) = head_at(bytes) else {
            return Err(BatchError::BadBatch { at: 0 });
        };
        let mut batch = Batch::new(alloc)?;
        for _ in 0..count {
            match batch.add_front(rest)? {
                Some(after) => rest = after,
                None => return Err(batch.ends_bad()),
            }
        }
        if !rest.is_empty() {
            return Err(batch.ends_bad());
        }
        Ok(batch)
    }

    /// What refuses bytes of which only these operations were read.
    fn ends_bad(&self) -> BatchError
        ensures { result ≡ BatchError.BadBatch (length (batch_bytes self.now)) }
    {
        BatchError::BadBatch {
            at: self.size() as usize,
        }
    }

    /// Adds the operation at the front of the bytes, and gives the bytes after it. `None` where no operation
    /// stands there that the batch takes.
    fn add_front<'a>(&mut self, bytes: &'a [u8]) -> Result<Option<&'a [u8]>, NoMemory>
        ensures added { IfOk result (λ taken. IfSome taken (λ rest. TakesNext self.old self.new bytes.now rest.now)) }
        ensures none { IfOk result
            (λ taken. IfNone taken ((op : AnOp) (rest : List ℕ) → AllPass (checks self.old op) → bytes.now ≢ op_bytes op ++ rest)) }
        ensures same { IfOk result (λ taken. IfNone taken (self.new ≡ self.old)) }
    {
        let Some((op, rest)) = op_at(bytes) else {
            return Ok(None);
        };
        match self.add_raw(op) {
            Ok(()) => Ok(Some(rest)),
            Err(error) => match error {
                BatchError::Memory => Err(NoMemory),
                _ => Ok(None),
            },
        }
    }

    /// Adds an operation whose parts are not yet tested.
    fn add_raw(&mut self, op: RawOp<'_>) -> Result<(), BatchError>
        ensures added { OnOk result (self.new ≡ self.old ++ op_of op.entry ∷ []) }
        ensures passes { OnOk result (AllPass (checks self.old (op_of op.entry))) }
        ensures refusal { IfErr result (IsRefusal (checks self.old (op_of op.entry))) }
        ensures same { OnErr result (self.new ≡ self.old) }
    {
        match op {
            RawOp::Put { key, value } => self.set(key, value),
            RawOp::Del { key } => self.del(key),
            RawOp::RangeSet {
                start,
                end,
                suffix,
                value,
            } => self.rset(start, end, suffix, value),
            RawOp::RangeUnset { start, end, suffix } => self.runset(start, end, suffix),
            RawOp::RangeDel { start, end } => self.rdel(start, end),
        }
    }
}

/// The count in the head, and the bytes after the head.
#[tactic(auto, unfolding(crate::specs::Reading::counted_at))]
fn head_at(bytes: &[u8]) -> Option<(u16, &[u8])>
    ensures { GivesAs (λ x. (x.0, x.1.now)) result (head_at bytes.now) }
{
    let (version, rest) = bytes.split_first()?;
    if *version != VERSION {
        return None;
    }
    let (count, rest) = number_at(rest)?;
    if count < 1 || count > MAX_OPS {
        return None;
    }
    Some((count, rest))
}
