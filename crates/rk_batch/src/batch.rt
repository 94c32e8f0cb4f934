ghost use Rattle.std.specs.Prelude.{◌≡◌, ◌≤◌, [], ◌∷◌, ◌++◌, length, IfOk, IfErr, OnOk, OnErr};
ghost use Rattle.rk_model.specs.declared.op.Op.TheVariants.{Put, Del, RangeSet, RangeUnset, RangeDel};
ghost use Rattle.rk_batch.specs.Encoding.{batch_bytes};
ghost use Rattle.rk_batch.specs.Checks.{AllPass, IsOp, IsRefusal, checks, room};
ghost use Rattle.rk_batch.specs.Grammar.{IsBatchOf};

use crate::BatchError;
use crate::kinds::VERSION;
use crate::parts::{at_most, key_of, span_of, suffix_of, value_of};
use crate::size::op_size;
use crate::writing::{push_number, push_op};
use rk_key::Which;
use rk_model::Op;
use rk_outside::{NoMemory, What};
use std::alloc::Global;
use std::marker::Model;
use std::mem;

/// The most operations of a batch.
pub(crate) const MAX_OPS: u16 = 1_000;

/// The most bytes of a batch.
const MAX_BYTES: u64 = 1_048_576;

/// The bytes before the first operation.
const HEAD_BYTES: u64 = 3;

/// Operations that are to be done together. Contracts see their list.
#[derive(Debug, Drop)]
pub struct Batch {
    ops: Vec<Op>,
    size: u64,
}

impl Model for Batch {
    ghost use Rattle.std.specs.Prelude.{List};
    ghost use Rattle.rk_model.specs.declared.op.Op.{Op};
    ghost use Rattle.rk_batch.specs.Kept.{IsBatch};

    ghost Value = { List Op };

    ghost view = { λ batch. batch.ops.items };

    ghost invariant = { λ batch. IsBatch batch.ops.items batch.size };
}

impl Batch {
    /// The batch without operations. It takes no memory.
    ///
    /// # Errors
    ///
    /// None: `NoMemory` is there for a body that takes some.
    pub fn new(alloc: Global) -> Result<Batch, NoMemory>
        ensures { IfOk result (λ batch. batch ≡ []) }
    {
        Ok(Batch {
            ops: Vec::new(alloc),
            size: HEAD_BYTES,
        })
    }

    /// Adds a point set.
    ///
    /// # Errors
    ///
    /// The first that holds of `BadKey`, and `TooLong` of the value, the operations and the bytes. The batch is
    /// as before then.
    pub fn set(&mut self, key: &[u8], value: &[u8]) -> Result<(), BatchError>
        ensures added { OnOk result (self.new ≡ self.old ++ Put key.now value.now ∷ []) }
        ensures passes { OnOk result (AllPass (checks self.old (Put key.now value.now))) }
        ensures refusal { IfErr result (IsRefusal (checks self.old (Put key.now value.now))) }
        ensures same { OnErr result (self.new ≡ self.old) }
    {
        let alloc = self.alloc();
        let key = key_of(alloc, Which::Key, key)?;
        let value = value_of(alloc, value)?;
        self.add(Op::Put { key, value })
    }

    /// Adds a point delete.
    ///
    /// # Errors
    ///
    /// The first that holds of `BadKey`, and `TooLong` of the operations and the bytes. The batch is as before
    /// then.
    pub fn del(&mut self, key: &[u8]) -> Result<(), BatchError>
        ensures added { OnOk result (self.new ≡ self.old ++ Del key.now ∷ []) }
        ensures passes { OnOk result (AllPass (checks self.old (Del key.now))) }
        ensures refusal { IfErr result (IsRefusal (checks self.old (Del key.now))) }
        ensures same { OnErr result (self.new ≡ self.old) }
    {
        let key = key_of(self.alloc(), Which::Key, key)?;
        self.add(Op::Del { key })
    }

    /// Adds a range key set.
    ///
    /// # Errors
    ///
    /// The first that holds of `BadKey` and `SuffixInBound` of the start, the same of the end, `EmptySpan`,
    /// `BadKey` of the suffix, and `TooLong` of the value, the operations and the bytes. The batch is as before
    /// then.
    pub fn rset(
        &mut self,
        start: &[u8],
        end: &[u8],
        suffix: &[u8],
        value: &[u8],
    ) -> Result<(), BatchError>
        ensures added { OnOk result (self.new ≡ self.old ++ RangeSet start.now end.now suffix.now value.now ∷ []) }
        ensures passes { OnOk result (AllPass (checks self.old (RangeSet start.now end.now suffix.now value.now))) }
        ensures refusal { IfErr result (IsRefusal (checks self.old (RangeSet start.now end.now suffix.now value.now))) }
        ensures same { OnErr result (self.new ≡ self.old) }
    {
        let alloc = self.alloc();
        let (start, end) = span_of(alloc, start, end)?;
        let suffix = suffix_of(alloc, suffix)?;
        let value = value_of(alloc, value)?;
        self.add(Op::RangeSet {
            start,
            end,
            suffix,
            value,
        })
    }

    /// Adds a range key unset.
    ///
    /// # Errors
    ///
    /// The first that holds of `BadKey` and `SuffixInBound` of the start, the same of the end, `EmptySpan`,
    /// `BadKey` of the suffix, and `TooLong` of the operations and the bytes. The batch is as before then.
    pub fn runset(&mut self, start: &[u8], end: &[u8], suffix: &[u8]) -> Result<(), BatchError>
        ensures added { OnOk result (self.new ≡ self.old ++ RangeUnset start.now end.now suffix.now ∷ []) }
        ensures passes { OnOk result (AllPass (checks self.old (RangeUnset start.now end.now suffix.now))) }
        ensures refusal { IfErr result (IsRefusal (checks self.old (RangeUnset start.now end.now suffix.now))) }
        ensures same { OnErr result (self.new ≡ self.old) }
    {
        let alloc = self.alloc();
        let (start, end) = span_of(alloc, start, end)?;
        let suffix = suffix_of(alloc, suffix)?;
        self.add(Op::RangeUnset { start, end, suffix })
    }

    /// Adds a range key delete.
    ///
    /// # Errors
    ///
    /// The first that holds of `BadKey` and `SuffixInBound` of the start, the same of the end, `EmptySpan`, and
    /// `TooLong` of the operations and the bytes. The batch is as before then.
    pub fn rdel(&mut self, start: &[u8], end: &[u8]) -> Result<(), BatchError>
        ensures added { OnOk result (self.new ≡ self.old ++ RangeDel start.now end.now ∷ []) }
        ensures passes { OnOk result (AllPass (checks self.old (RangeDel start.now end.now))) }
        ensures refusal { IfErr result (IsRefusal (checks self.old (RangeDel start.now end.now))) }
        ensures same { OnErr result (self.new ≡ self.old) }
    {
        let (start, end) = span_of(self.alloc(), start, end)?;
        self.add(Op::RangeDel { start, end })
    }

    /// Leaves the batch without operations. It takes no memory.
    pub fn clear(&mut self)
        ensures { self.new ≡ [] }
    {
        self.ops.clear();
        self.size = HEAD_BYTES;
    }

    /// Takes the operations out, and leaves the empty batch. It takes no memory, and copies no operation.
    pub fn take_ops(&mut self) -> Vec<Op>
        ensures ops { result.items ≡ self.old }
        ensures empty { self.new ≡ [] }
    {
        let none = Vec::new(self.alloc());
        self.size = HEAD_BYTES;
        mem::replace(&mut self.ops, none)
    }

    /// Lends the operations. It takes no memory.
    pub fn ops(&self) -> &[Op]
        ensures { result.now ≡ self.now }
    {
        &self.ops
    }

    /// The number of operations.
    pub fn count(&self) -> u64
        ensures { result ≡ length self.now }
    {
        self.ops.len() as u64
    }

    /// The length of the batch's bytes.
    pub fn size(&self) -> u64
        ensures { result ≡ length (batch_bytes self.now) }
    {
        self.size
    }

    /// The bytes of a batch with at least one operation.
    ///
    /// # Errors
    ///
    /// `NoMemory` where the bytes find no memory.
    pub fn encode(&self, alloc: Global) -> Result<Vec<u8>, NoMemory>
        requires { 1 ≤ length self.now }
        ensures spelled { IfOk result (λ bytes. bytes.items ≡ batch_bytes self.now) }
        ensures is_batch { IfOk result (λ bytes. IsBatchOf bytes.items self.now) }
    {
        let mut out = Vec::new(alloc);
        out.push(VERSION)?;
        push_number(&mut out, self.ops.len() as u16)?;
        for op in &self.ops {
            push_op(&mut out, op)?;
        }
        Ok(out)
    }

    fn alloc(&self) -> Global {
        *self.ops.allocator()
    }

    /// Adds an operation that is as it must be.
    #[tactic(auto, using(crate::proofs::Sizes::size_more))]
    fn add(&mut self, op: Op) -> Result<(), BatchError>
        requires { IsOp op }
        ensures added { OnOk result (self.new ≡ self.old ++ op ∷ []) }
        ensures passes { OnOk result (AllPass (room self.old op)) }
        ensures refusal { IfErr result (IsRefusal (room self.old op)) }
        ensures same { OnErr result (self.new ≡ self.old) }
    {
        at_most(What::Ops, self.ops.len() as u64 + 1, u64::from(MAX_OPS))?;
        let size = self.size + op_size(&op);
        at_most(What::Bytes, size, MAX_BYTES)?;
        self.ops.push(op)?;
        self.size = size;
        Ok(())
    }
}
