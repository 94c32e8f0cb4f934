// Keys and masks in the words of a line.
ghost use Rattle.std.specs.Prelude.{Ok, Err, if◌then◌else◌};
ghost use Rattle.rk_key.specs.KeyTests.{is_suffix};
ghost use Rattle.rk_script.specs.Grammar.{key_of, mask_of};
ghost use Rattle.rk_script.specs.LineErrors.{ReadsSame};

use crate::Why;
use crate::error::{LineError, Read};
use crate::escape::Escaped;
use rk_key::{KeyError, Suffix, UserKey, read_key, read_suffix};
use std::alloc::Global;

/// The key that a word stands for.
pub(crate) fn key_in(alloc: Global, word: &Escaped<'_>) -> Read<UserKey>
    ensures { ReadsSame result (key_of word.now) }
{
    match word.plain() {
        Some(bytes) => key_of(alloc, bytes),
        None => key_of(alloc, word.decode(alloc)?.bytes()),
    }
}

/// The suffix that a word stands for, which is not empty.
pub(crate) fn mask_in(alloc: Global, word: &Escaped<'_>) -> Read<Suffix>
    ensures { ReadsSame result (mask_of word.now) }
{
    match word.plain() {
        Some(bytes) => mask_of(alloc, bytes),
        None => mask_of(alloc, word.decode(alloc)?.bytes()),
    }
}

/// The key that the bytes are.
fn key_of(alloc: Global, bytes: &[u8]) -> Read<UserKey>
    ensures { ReadsSame result (key_of bytes.now) }
{
    match read_key(alloc, bytes) {
        Ok(key) => Ok(key),
        Err(KeyError::BadKey { .. }) => Err(LineError::Bad(Why::Key)),
        Err(KeyError::Memory) => Err(LineError::Memory),
    }
}

/// The suffix that the bytes are, which is not empty.
fn mask_of(alloc: Global, bytes: &[u8]) -> Read<Suffix>
    ensures { ReadsSame result (mask_of bytes.now) }
{
    if bytes.is_empty() {
        return Err(LineError::Bad(Why::Suffix));
    }
    suffix_of(alloc, bytes)
}

/// The suffix that the bytes are.
fn suffix_of(alloc: Global, bytes: &[u8]) -> Read<Suffix>
    ensures { ReadsSame result (if is_suffix bytes.now then Ok bytes.now else Err Why.Suffix) }
{
    match read_suffix(alloc, bytes) {
        Ok(suffix) => Ok(suffix),
        Err(KeyError::BadKey { .. }) => Err(LineError::Bad(Why::Suffix)),
        Err(KeyError::Memory) => Err(LineError::Memory),
    }
}
