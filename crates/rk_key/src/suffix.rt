ghost use Rattle.std.specs.Prelude.{◌≡◌, List, ℕ, refl, IfOk, IfErr, OnOk, ◌≢◌};
ghost use Rattle.std.specs.Ordering.{eq_by_cmp, as_partial_cmp};
ghost use Rattle.rk_key.specs.Keys.{IsSuffix, suffix_cmp};
ghost use Rattle.std.specs.Cmp.{partial_equiv_from_equiv, partial_order_from_agreeing_total};
ghost use Rattle.std.proofs.lemmas.Cmp.{eq_by_cmp_equiv};
ghost use Rattle.rk_key.specs.Refusals.{IsRefusalOf};
ghost use Rattle.rk_key.specs.Laws.{suffix_cmp-total};

use crate::error::{KeyError, Which};
use crate::form::bad_suffix;
use crate::order::compare_suffixes;
use smallvec::SmallVec;
use std::alloc::Global;
use std::cmp::Ordering;
use std::marker::Model;

/// A suffix, which may be empty. Contracts see its bytes.
#[derive(Debug, Drop)]
pub struct Suffix {
    bytes: SmallVec<u8, 32>,
}

impl Model for Suffix {
    ghost Value = { List ℕ };

    ghost view = { λ suffix. suffix.bytes.items };

    ghost invariant = { λ suffix. IsSuffix suffix.bytes.items };
}

impl Suffix {
    /// The bytes: none, or `@` and a number.
    pub fn bytes(&self) -> &[u8]
        ensures value { result.now ≡ self.now }
        ensures is_suffix { IsSuffix self.now }
    {
        self.bytes.as_slice()
    }

    /// An equal suffix. It takes no memory, since a suffix has at most 21 bytes.
    #[tactic(auto, using(crate::proofs::Suffixes::length_suffix))]
    pub fn copy(&self) -> Suffix
        ensures { result ≡ self.now }
    {
        let alloc = *self.bytes.allocator();
        Suffix {
            bytes: SmallVec::from_slice(alloc, self.bytes()).unwrap(),
        }
    }
}

/// Reads a suffix. It takes no memory.
///
/// # Errors
///
/// [`KeyError::BadKey`] exactly where the bytes are no suffix.
#[tactic(auto, using(crate::proofs::Suffixes::length_suffix))]
pub fn read_suffix(alloc: Global, bytes: &[u8]) -> Result<Suffix, KeyError>
    ensures ok { IfOk result (λ suffix. suffix ≡ bytes.now) }
    ensures is_suffix { OnOk result (IsSuffix bytes.now) }
    ensures refusal { IfErr result (IsRefusalOf IsSuffix Which.Suffix bytes.now) }
    ensures no_memory { IfErr result (λ error. error ≢ KeyError.Memory) }
{
    if let Some(at) = bad_suffix(bytes) {
        return Err(KeyError::BadKey {
            which: Which::Suffix,
            at,
        });
    }
    Ok(Suffix {
        bytes: SmallVec::from_slice(alloc, bytes).unwrap(),
    })
}

impl PartialEq for Suffix {
    ghost eq = { eq_by_cmp suffix_cmp };

    ghost laws = { partial_equiv_from_equiv (eq_by_cmp_equiv suffix_cmp-total) };

    fn eq(&self, other: &Suffix) -> bool {
        self.cmp(other).is_eq()
    }
}

impl Eq for Suffix {
    ghost laws = { eq_by_cmp_equiv suffix_cmp-total };
}

impl PartialOrd for Suffix {
    ghost partial_cmp = { as_partial_cmp suffix_cmp };

    ghost laws = { partial_order_from_agreeing_total suffix_cmp suffix_cmp-total (λ _ _. refl) (λ _ _. refl) };

    fn partial_cmp(&self, other: &Suffix) -> Option<Ordering> {
        Some(self.cmp(other))
    }
}

impl Ord for Suffix {
    ghost cmp = { suffix_cmp };

    ghost total = { suffix_cmp-total };

    ghost matches_partial_cmp = { λ _ _. refl };

    ghost matches_eq = { λ _ _. refl };

    fn cmp(&self, other: &Suffix) -> Ordering {
        compare_suffixes(self.bytes(), other.bytes())
    }
}
