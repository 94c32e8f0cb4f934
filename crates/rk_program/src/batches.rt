// The batches of the writers.
ghost use Rattle.std.specs.Prelude.{IfOk};
ghost use Rattle.rk_program.specs.Asked.{op_of};
ghost use Rattle.rk_program.specs.Standing.{IsGiven, IsPlaceOf};

use crate::session::Writer;
use rk_batch::{Batch, BatchError};
use rk_outside::{Bytes, NoMemory};
use rk_script::find;
use std::alloc::Global;

/// An operation that a line asks for. Keys, suffixes and values are any bytes, since a batch tests them itself.
#[derive(Clone, Copy, Debug)]
pub(crate) enum BatchOp<'a> {
    Put {
        key: &'a [u8],
        value: &'a [u8],
    },
    Del {
        key: &'a [u8],
    },
    RangeSet {
        start: &'a [u8],
        end: &'a [u8],
        suffix: &'a [u8],
        value: &'a [u8],
    },
    RangeUnset {
        start: &'a [u8],
        end: &'a [u8],
        suffix: &'a [u8],
    },
    RangeDel {
        start: &'a [u8],
        end: &'a [u8],
    },
}

/// The place of a writer. A new one is put at the end, with an empty batch.
pub(crate) fn place_of(
    alloc: Global,
    writers: &mut Vec<Writer>,
    name: &Bytes,
) -> Result<usize, NoMemory>
    ensures { IfOk result (IsPlaceOf writers.old.items writers.new.items name.now) }
{
    match find(writers, name.bytes()) {
        Some(i) => Ok(i),
        None => {
            let batch = Batch::new(alloc)?;
            let name = name.copy()?;
            writers.push(Writer { name, batch })?;
            Ok(writers.len() - 1)
        }
    }
}

impl<'a> BatchOp<'a> {
    /// Gives the operation to a batch.
    ///
    /// # Errors
    ///
    /// The batch's refusal; then the batch is as before.
    pub(crate) fn add_to(self, batch: &mut Batch) -> Result<(), BatchError>
        ensures { IsGiven batch.old batch.new (op_of self.entry) result }
    {
        match self {
            BatchOp::Put { key, value } => batch.set(key, value),
            BatchOp::Del { key } => batch.del(key),
            BatchOp::RangeSet {
                start,
                end,
                suffix,
                value,
            } => batch.rset(start, end, suffix, value),
            BatchOp::RangeUnset { start, end, suffix } => batch.runset(start, end, suffix),
            BatchOp::RangeDel { start, end } => batch.rdel(start, end),
        }
    }
}
