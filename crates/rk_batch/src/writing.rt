// Operations written as bytes.
ghost use Rattle.std.specs.Prelude.{◌≡◌, ◌≤◌, ◌<◌, [], ◌∷◌, ◌++◌, length, OnOk};
ghost use Rattle.byteorder.specs.Endian.{big_bytes};
ghost use Rattle.rk_batch.specs.Encoding.{short, long, op_bytes};
ghost use Rattle.rk_batch.specs.Checks.{IsOp};

use crate::kinds::{DEL, PUT, RANGE_DEL, RANGE_SET, RANGE_UNSET};
use byteorder::{BigEndian, ByteOrder};
use rk_key::{Suffix, UserKey};
use rk_model::Op;
use rk_outside::{Bytes, NoMemory};

/// Writes an operation at the end.
#[tactic(auto, using(std::proofs::Common::append_assoc))]
pub(crate) fn push_op(out: &mut Vec<u8>, op: &Op) -> Result<(), NoMemory>
    requires { IsOp op.now }
    ensures { OnOk result (out.new.items ≡ out.old.items ++ op_bytes op.now) }
{
    match op {
        Op::Put { key, value } => {
            out.push(PUT)?;
            push_key(out, key)?;
            push_value(out, value)
        }
        Op::Del { key } => {
            out.push(DEL)?;
            push_key(out, key)
        }
        Op::RangeSet {
            start,
            end,
            suffix,
            value,
        } => {
            out.push(RANGE_SET)?;
            push_key(out, start)?;
            push_key(out, end)?;
            push_suffix(out, suffix)?;
            push_value(out, value)
        }
        Op::RangeUnset { start, end, suffix } => {
            out.push(RANGE_UNSET)?;
            push_key(out, start)?;
            push_key(out, end)?;
            push_suffix(out, suffix)
        }
        Op::RangeDel { start, end } => {
            out.push(RANGE_DEL)?;
            push_key(out, start)?;
            push_key(out, end)
        }
    }
}

#[tactic(auto, using(crate::proofs::Lengths::length_key))]
fn push_key(out: &mut Vec<u8>, key: &UserKey) -> Result<(), NoMemory>
    ensures { OnOk result (out.new.items ≡ out.old.items ++ short key.now) }
{
    push_short(out, key.bytes())
}

#[tactic(auto, using(crate::proofs::Lengths::length_suffix))]
fn push_suffix(out: &mut Vec<u8>, suffix: &Suffix) -> Result<(), NoMemory>
    ensures { OnOk result (out.new.items ≡ out.old.items ++ short suffix.now) }
{
    push_short(out, suffix.bytes())
}

fn push_short(out: &mut Vec<u8>, bytes: &[u8]) -> Result<(), NoMemory>
    requires { length bytes.now < 256 }
    ensures { OnOk result (out.new.items ≡ out.old.items ++ short bytes.now) }
{
    out.push(bytes.len() as u8)?;
    out.extend_from_slice(bytes)?;
    Ok(())
}

fn push_value(out: &mut Vec<u8>, value: &Bytes) -> Result<(), NoMemory>
    requires { length value.now ≤ 32768 }
    ensures { OnOk result (out.new.items ≡ out.old.items ++ long value.now) }
{
    let bytes = value.bytes();
    push_number(out, bytes.len() as u16)?;
    out.extend_from_slice(bytes)?;
    Ok(())
}

/// Writes a number of two bytes at the end, the higher byte first.
pub(crate) fn push_number(out: &mut Vec<u8>, number: u16) -> Result<(), NoMemory>
    ensures { OnOk result (out.new.items ≡ out.old.items ++ big_bytes 2 number) }
{
    let mut bytes = [0; 2];
    BigEndian::write_u16(&mut bytes, number);
    out.extend_from_slice(&bytes)?;
    Ok(())
}
