ghost use Rattle.std.specs.Prelude.{◌≡◌, ◌≤◌, List, ℕ, length, refl, IfOk, IfErr, IsOk, OnOk, ◌≢◌};
ghost use Rattle.std.specs.Ordering.{eq_by_cmp, as_partial_cmp};
ghost use Rattle.std.specs.Cmp.{partial_equiv_from_equiv, partial_order_from_agreeing_total};
ghost use Rattle.std.proofs.lemmas.Cmp.{eq_by_cmp_equiv};
ghost use Rattle.rk_key.specs.Keys.{IsKey, IsSuffix, prefix, suffix, key_cmp};
ghost use Rattle.rk_key.specs.Refusals.{IsRefusalOf};
ghost use Rattle.rk_key.specs.Laws.{key_cmp-total};

use crate::error::{KeyError, Which};
use crate::form::bad_key;
use crate::order::{compare, split};
use smallvec::SmallVec;
use std::alloc::Global;
use std::cmp::Ordering;
use std::marker::Model;

/// A user key. Contracts see its bytes.
#[derive(Debug, Drop)]
pub struct UserKey {
    bytes: SmallVec<u8, 32>,
}

impl Model for UserKey {
    ghost Value = { List ℕ };

    ghost view = { λ key. key.bytes.items };

    ghost invariant = { λ key. IsKey key.bytes.items };
}

impl UserKey {
    /// The bytes: the prefix and then the suffix.
    pub fn bytes(&self) -> &[u8]
        ensures value { result.now ≡ self.now }
        ensures is_key { IsKey self.now }
    {
        self.bytes.as_slice()
    }

    /// The bytes before the first `@`.
    pub fn prefix(&self) -> &[u8]
        ensures value { result.now ≡ prefix self.now }
        ensures is_key { IsKey self.now }
    {
        let bytes = self.bytes();
        &bytes[..split(bytes)]
    }

    /// The bytes from the first `@` on.
    pub fn suffix(&self) -> &[u8]
        ensures value { result.now ≡ suffix self.now }
        ensures is_suffix { IsSuffix result.now }
    {
        let bytes = self.bytes();
        &bytes[split(bytes)..]
    }

    /// An equal key. A key of at most 32 bytes is copied without memory.
    ///
    /// # Errors
    ///
    /// [`KeyError::Memory`] where there is no memory for the bytes.
    pub fn copy(&self) -> Result<UserKey, KeyError>
        ensures ok { IfOk result (λ key. key ≡ self.now) }
        ensures is_key { IsKey self.now }
        ensures only_memory { IfErr result (λ error. error ≡ KeyError.Memory) }
        ensures short { length self.now ≤ 32 → IsOk result }
    {
        let alloc = *self.bytes.allocator();
        Ok(UserKey {
            bytes: SmallVec::from_slice(alloc, self.bytes())?,
        })
    }

    /// An equal key, in the memory of an old one.
    ///
    /// # Errors
    ///
    /// [`KeyError::Memory`] where that is too little and there is no more. The old one is gone.
    pub fn copy_into(&self, old: UserKey) -> Result<UserKey, KeyError>
        ensures ok { IfOk result (λ key. key ≡ self.now) }
        ensures only_memory { IfErr result (λ error. error ≡ KeyError.Memory) }
    {
        let mut bytes = old.bytes;
        bytes.clear();
        bytes.extend_from_slice(self.bytes())?;
        Ok(UserKey { bytes })
    }
}

/// Reads a key. A key of at most 32 bytes takes no memory.
///
/// # Errors
///
/// [`KeyError::BadKey`] exactly where the bytes are no key, and [`KeyError::Memory`] where they are one and
/// there is no memory for them.
pub fn read_key(alloc: Global, bytes: &[u8]) -> Result<UserKey, KeyError>
    ensures ok { IfOk result (λ key. key ≡ bytes.now) }
    ensures is_key { OnOk result (IsKey bytes.now) }
    ensures refusal { IfErr result (IsRefusalOf IsKey Which.Key bytes.now) }
    ensures memory { IfErr result (λ error. error ≡ KeyError.Memory → IsKey bytes.now) }
    ensures short { length bytes.now ≤ 32 → IfErr result (λ error. error ≢ KeyError.Memory) }
{
    if let Some(at) = bad_key(bytes) {
        return Err(KeyError::BadKey {
            which: Which::Key,
            at,
        });
    }
    Ok(UserKey {
        bytes: SmallVec::from_slice(alloc, bytes)?,
    })
}

impl PartialEq for UserKey {
    ghost eq = { eq_by_cmp key_cmp };

    ghost laws = { partial_equiv_from_equiv (eq_by_cmp_equiv key_cmp-total) };

    fn eq(&self, other: &UserKey) -> bool {
        self.cmp(other).is_eq()
    }
}

impl Eq for UserKey {
    ghost laws = { eq_by_cmp_equiv key_cmp-total };
}

impl PartialOrd for UserKey {
    ghost partial_cmp = { as_partial_cmp key_cmp };

    ghost laws = { partial_order_from_agreeing_total key_cmp key_cmp-total (λ _ _. refl) (λ _ _. refl) };

    fn partial_cmp(&self, other: &UserKey) -> Option<Ordering> {
        Some(self.cmp(other))
    }
}

impl Ord for UserKey {
    ghost cmp = { key_cmp };

    ghost total = { key_cmp-total };

    ghost matches_partial_cmp = { λ _ _. refl };

    ghost matches_eq = { λ _ _. refl };

    fn cmp(&self, other: &UserKey) -> Ordering {
        compare(self.bytes(), other.bytes())
    }
}
