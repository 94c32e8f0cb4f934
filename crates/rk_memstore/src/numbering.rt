// The numbers that a commit gives to its operations.
ghost use Rattle.std.specs.Prelude.{◌≡◌, ◌+◌, ◌<◌, ◌^◌, length, IfOk, IsTrue};
ghost use Rattle.rk_model.specs.Items.{are_keyed};
ghost use Rattle.rk_model.specs.Operations.{numbered};

use rk_model::{Entry, Op};
use rk_outside::NoMemory;
use std::alloc::Global;

/// Copies of the operations, with the numbers behind the last one.
///
/// # Errors
///
/// `NoMemory` where a copy or the list finds no memory.
pub fn numbered(alloc: Global, ops: &[Op], last: u64) -> Result<Vec<Entry>, NoMemory>
    requires { last + length ops.now < 2 ^ 64 }
    ensures entries { IfOk result (λ es. es.items ≡ numbered (last + 1) ops.now) }
    ensures keyed { IfOk result (λ es. IsTrue (are_keyed es.items)) }
{
    let mut entries = Vec::with_capacity(alloc, ops.len())?;
    let mut seq = last;
    for op in ops {
        seq += 1;
        entries.push(Entry {
            op: op.copy()?,
            seq,
        })?;
    }
    Ok(entries)
}
