ghost use Rattle.std.specs.Prelude.{◌+◌, ◌-◌, ◌*◌, ◌<◌, ◌^◌, SomeIff, IfSome, IfNone};
ghost use Rattle.rk_key.specs.Keys.{IsDigit, IsKey, IsSuffix};
ghost use Rattle.rk_key.specs.Refusals.{IsBadAt, IsDecimal};

use crate::order::split;

/// The most bytes that a prefix may have.
const MAX_PREFIX: usize = 200;

/// Where the bytes stop to begin a key, if they are none.
pub(crate) fn bad_key(bytes: &[u8]) -> Option<usize>
    ensures key { IfNone result (IsKey bytes.now) }
    ensures bad { IfSome result (λ at. IsBadAt IsKey bytes.now at) }
{
    let prefix_len = split(bytes);
    if prefix_len == 0 {
        return Some(0);
    }
    if prefix_len > MAX_PREFIX {
        return Some(MAX_PREFIX);
    }
    let at = bad_suffix(&bytes[prefix_len..])?;
    Some(prefix_len + at)
}

/// Where the bytes stop to begin a suffix, if they are none.
pub(crate) fn bad_suffix(bytes: &[u8]) -> Option<usize>
    ensures suffix { IfNone result (IsSuffix bytes.now) }
    ensures bad { IfSome result (λ at. IsBadAt IsSuffix bytes.now at) }
{
    match bytes {
        [] => None,
        [b'@', b'1'..=b'9', ..] => {
            let at = bad_digit(&bytes[1..])?;
            Some(1 + at)
        }
        [b'@', ..] => Some(1),
        _ => Some(0),
    }
}

/// Where the bytes stop to be the digits of a number of at most `u64::MAX`.
fn bad_digit(bytes: &[u8]) -> Option<usize>
    ensures decimal { IfNone result (IsDecimal bytes.now) }
    ensures bad { IfSome result (λ at. IsBadAt IsDecimal bytes.now at) }
{
    let mut number = 0;
    for (at, byte) in bytes.iter().enumerate() {
        match with_digit(number, *byte) {
            Some(longer) => number = longer,
            None => return Some(at),
        }
    }
    None
}

/// The number with one more digit, if the byte is one and the number fits.
fn with_digit(number: u64, byte: u8) -> Option<u64>
    ensures { SomeIff result (IsDigit byte × (10 * number + (byte - 48) < 2 ^ 64)) (10 * number + (byte - 48)) }
{
    if !byte.is_ascii_digit() {
        return None;
    }
    number.checked_mul(10)?.checked_add(u64::from(byte - b'0'))
}
