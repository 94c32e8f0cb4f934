// Copies of keys, of bounds and of lists of entries.
ghost use Rattle.std.specs.Prelude.{◌≡◌, IfOk, IsTrue};
ghost use Rattle.rk_key.specs.KeyTests.{is_key};

use crate::Entry;
use rk_key::UserKey;
use rk_outside::NoMemory;
use std::alloc::Global;

/// An equal key.
///
/// # Errors
///
/// `NoMemory`: a key that stands is refused for nothing else.
pub fn copy_key(key: &UserKey) -> Result<UserKey, NoMemory>
    ensures value { IfOk result (λ k. k ≡ key.now) }
    ensures is_key { IfOk result (λ k. IsTrue (is_key k)) }
{
    match key.copy() {
        Ok(copied) => Ok(copied),
        Err(_) => Err(NoMemory),
    }
}

/// An equal key, in the memory of an old one.
///
/// # Errors
///
/// `NoMemory` where that is too little and there is no more. The old one is gone.
pub fn copy_key_into(key: &UserKey, old: UserKey) -> Result<UserKey, NoMemory>
    ensures { IfOk result (λ k. k ≡ key.now) }
{
    match key.copy_into(old) {
        Ok(copied) => Ok(copied),
        Err(_) => Err(NoMemory),
    }
}

/// An equal bound.
///
/// # Errors
///
/// As [`copy_key`].
pub fn copy_bound(bound: &Option<UserKey>) -> Result<Option<UserKey>, NoMemory>
    ensures { IfOk result (λ b. b ≡ bound.now) }
{
    match bound {
        Some(key) => Ok(Some(copy_key(key)?)),
        None => Ok(None),
    }
}

/// Equal entries.
pub(crate) fn copy_entries(alloc: Global, entries: &[Entry]) -> Result<Vec<Entry>, NoMemory>
    ensures { IfOk result (λ v. v.items ≡ entries.now) }
{
    let mut copied = Vec::new(alloc);
    for entry in entries {
        copied.push(entry.copy()?)?;
    }
    Ok(copied)
}
