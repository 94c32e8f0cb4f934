// What is written to a sink.
ghost use Rattle.std.specs.Prelude.{◌≡◌, ◌≤◌, length, OnOk, OnErr, IfErr, IfSome, IsTrue};
ghost use Rattle.std.specs.Io.KnownBytes.{Appends, Keeps};
ghost use Rattle.rk_outside.specs.Sinks.{AppendsPrefix};
ghost use Rattle.rk_program.specs.Output.{IsSinkRefusal};

use crate::Cause;
use rk_outside::{Failed, Sink, SinkError};

/// Writes all the bytes. Each turn gives at least one byte. After a failure some first bytes were written.
///
/// # Errors
///
/// [`Cause::SinkFault`] where the sink fails. [`Cause::Memory`] where it has no memory.
pub fn write_all<K: Sink>(sink: &mut K, bytes: &[u8]) -> Result<(), Cause>
    ensures written { OnOk result (Appends (K.written sink.old) (K.written sink.new) bytes.now) }
    ensures no_fault { OnOk result (K.fault_count sink.new ≡ K.fault_count sink.old) }
    ensures part { OnErr result (AppendsPrefix (K.written sink.old) (K.written sink.new) bytes.now) }
    ensures cause { IfErr result (IsSinkRefusal (K.fault_count sink.old) (K.fault_count sink.new)) }
    ensures later { K.fault_count sink.old ≤ K.fault_count sink.new }
{
    let mut rest = bytes;
    while !rest.is_empty() {
        match sink.write(rest) {
            Ok(count) => {
                let (_, after) = rest.split_at(count);
                rest = after;
            }
            Err(SinkError::Memory) => return Err(Cause::Memory),
            Err(SinkError::Failed) => {
                return Err(Cause::SinkFault {
                    faults: sink.faults(),
                });
            }
        }
    }
    Ok(())
}

/// Hands on what was written.
///
/// # Errors
///
/// [`Cause::SinkFault`] where the sink fails.
pub fn finish<K: Sink>(sink: &mut K) -> Result<(), Cause>
    ensures kept { Keeps (K.written sink.old) (K.written sink.new) }
    ensures finished { OnOk result (IfSome (K.finished sink.new) IsTrue) }
    ensures no_fault { OnOk result (K.fault_count sink.new ≡ K.fault_count sink.old) }
    ensures cause { IfErr result (IsSinkRefusal (K.fault_count sink.old) (K.fault_count sink.new)) }
    ensures later { K.fault_count sink.old ≤ K.fault_count sink.new }
{
    match sink.finish() {
        Ok(()) => Ok(()),
        Err(Failed) => Err(Cause::SinkFault {
            faults: sink.faults(),
        }),
    }
}
