// The parts of an operation, each taken where it is as it must be.
ghost use Rattle.std.specs.Prelude.{◌≡◌, [], ◌∷◌, IfOk, IfErr, OnOk};
ghost use Rattle.rk_batch.specs.Checks.{AllPass, IsRefusal, Is_key, Is_suffix, Is_at_most, bound, span, short_value};

use crate::BatchError;
use rk_key::{KeyError, Suffix, UserKey, Which, read_key, read_suffix};
use rk_outside::{Bytes, What};
use std::alloc::Global;

/// The most bytes of a value.
const MAX_VALUE: u64 = 32_768;

/// A key.
pub(crate) fn key_of(alloc: Global, which: Which, bytes: &[u8]) -> Result<UserKey, BatchError>
    ensures ok { IfOk result (λ key. key ≡ bytes.now) }
    ensures passes { OnOk result (AllPass (Is_key which bytes.now ∷ [])) }
    ensures refusal { IfErr result (IsRefusal (Is_key which bytes.now ∷ [])) }
{
    match read_key(alloc, bytes) {
        Ok(key) => Ok(key),
        Err(KeyError::Memory) => Err(BatchError::Memory),
        Err(KeyError::BadKey { at, .. }) => Err(BatchError::BadKey { which, at }),
    }
}

/// A key that has no suffix.
fn bound_of(alloc: Global, which: Which, bytes: &[u8]) -> Result<UserKey, BatchError>
    ensures ok { IfOk result (λ key. key ≡ bytes.now) }
    ensures passes { OnOk result (AllPass (bound which bytes.now)) }
    ensures refusal { IfErr result (IsRefusal (bound which bytes.now)) }
{
    let key = key_of(alloc, which, bytes)?;
    if !key.suffix().is_empty() {
        return Err(BatchError::SuffixInBound { which });
    }
    Ok(key)
}

/// The start and the end of a span that is not empty.
pub(crate) fn span_of(
    alloc: Global,
    start: &[u8],
    end: &[u8],
) -> Result<(UserKey, UserKey), BatchError>
    ensures ok { IfOk result (λ bounds. (bounds.0 ≡ start.now) × (bounds.1 ≡ end.now)) }
    ensures passes { OnOk result (AllPass (span start.now end.now)) }
    ensures refusal { IfErr result (IsRefusal (span start.now end.now)) }
{
    let start = bound_of(alloc, Which::Start, start)?;
    let end = bound_of(alloc, Which::End, end)?;
    if !(start < end) {
        return Err(BatchError::EmptySpan);
    }
    Ok((start, end))
}

/// A suffix.
pub(crate) fn suffix_of(alloc: Global, bytes: &[u8]) -> Result<Suffix, BatchError>
    ensures ok { IfOk result (λ suffix. suffix ≡ bytes.now) }
    ensures passes { OnOk result (AllPass (Is_suffix bytes.now ∷ [])) }
    ensures refusal { IfErr result (IsRefusal (Is_suffix bytes.now ∷ [])) }
{
    match read_suffix(alloc, bytes) {
        Ok(suffix) => Ok(suffix),
        Err(KeyError::Memory) => Err(BatchError::Memory),
        Err(KeyError::BadKey { which, at }) => Err(BatchError::BadKey { which, at }),
    }
}

/// A value that is not too long.
pub(crate) fn value_of(alloc: Global, bytes: &[u8]) -> Result<Bytes, BatchError>
    ensures ok { IfOk result (λ value. value ≡ bytes.now) }
    ensures passes { OnOk result (AllPass (short_value bytes.now)) }
    ensures refusal { IfErr result (IsRefusal (short_value bytes.now)) }
{
    at_most(What::Value, bytes.len() as u64, MAX_VALUE)?;
    Ok(Bytes::from_slice(alloc, bytes)?)
}

/// Refuses what would pass a limit.
pub(crate) fn at_most(what: What, have: u64, limit: u64) -> Result<(), BatchError>
    ensures passes { OnOk result (AllPass (Is_at_most what have limit ∷ [])) }
    ensures refusal { IfErr result (IsRefusal (Is_at_most what have limit ∷ [])) }
{
    if have > limit {
        return Err(BatchError::TooLong { what, have, limit });
    }
    Ok(())
}
