// The lengths of what a batch's bytes consist of.
ghost use Rattle.std.specs.Prelude.{◌≡◌, ◌≤◌, length};
ghost use Rattle.rk_batch.specs.Encoding.{short, long, op_bytes};
ghost use Rattle.rk_batch.specs.Checks.{IsOp};

use rk_key::{Suffix, UserKey};
use rk_model::Op;
use rk_outside::Bytes;

/// The length of an operation's bytes.
pub(crate) fn op_size(op: &Op) -> u64
    requires { IsOp op.now }
    ensures value { result ≡ length (op_bytes op.now) }
    ensures small { result ≤ 40000 }
{
    match op {
        Op::Put { key, value } => 1 + key_size(key) + value_size(value),
        Op::Del { key } => 1 + key_size(key),
        Op::RangeSet {
            start,
            end,
            suffix,
            value,
        } => 1 + key_size(start) + key_size(end) + suffix_size(suffix) + value_size(value),
        Op::RangeUnset { start, end, suffix } => {
            1 + key_size(start) + key_size(end) + suffix_size(suffix)
        }
        Op::RangeDel { start, end } => 1 + key_size(start) + key_size(end),
    }
}

#[tactic(auto, using(crate::proofs::Lengths::length_key))]
fn key_size(key: &UserKey) -> u64
    ensures value { result ≡ length (short key.now) }
    ensures small { result ≤ 222 }
{
    1 + key.bytes().len() as u64
}

#[tactic(auto, using(crate::proofs::Lengths::length_suffix))]
fn suffix_size(suffix: &Suffix) -> u64
    ensures value { result ≡ length (short suffix.now) }
    ensures small { result ≤ 22 }
{
    1 + suffix.bytes().len() as u64
}

fn value_size(value: &Bytes) -> u64
    requires { length value.now ≤ 32768 }
    ensures value { result ≡ length (long value.now) }
    ensures small { result ≤ 32770 }
{
    2 + value.bytes().len() as u64
}
