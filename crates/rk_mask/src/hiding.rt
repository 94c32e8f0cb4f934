ghost use Rattle.std.specs.Prelude.{◌≡◌, map};
ghost use Rattle.std.specs.List.{list_any};
ghost use Rattle.rk_key.specs.Keys.{IsSuffix};
ghost use Rattle.rk_model.specs.Positions.{hides, masks};
ghost use Rattle.rk_model.specs.declared.span.SuffixValue.{SuffixValue};
ghost use Rattle.rk_mask.specs.Pairs.{pair_of};

use rk_key::{Suffix, UserKey, compare_suffixes};
use rk_model::{RangeKey, SuffixValue};

/// Whether a mask hides a point on the key, where the pairs are the cover of the key.
///
/// It does where neither the mask nor the key's suffix is empty and the suffix of a pair is not before the mask,
/// but before the key's suffix.
pub fn masks(pairs: &[SuffixValue], mask: &Suffix, key: &UserKey) -> bool
    ensures { result ≡ masks pairs.now mask.now key.now }
{
    masks_under(pairs, mask, key)
}

/// The same where the cover is that of the range keys of a span.
pub fn masks_point(keys: &[RangeKey], mask: &Suffix, key: &UserKey) -> bool
    ensures { result ≡ masks (map pair_of keys.now) mask.now key.now }
{
    masks_under(keys, mask, key)
}

/// What holds over a key under a suffix.
trait Suffixed {
    /// The pair of a cover that it is.
    ghost pair: { Self → SuffixValue };

    /// Its suffix.
    fn suffix(&self) -> &Suffix
        ensures { result.now ≡ (pair self.now).suffix };
}

impl Suffixed for SuffixValue {
    ghost pair = { λ p. p };

    fn suffix(&self) -> &Suffix {
        &self.suffix
    }
}

impl Suffixed for RangeKey {
    ghost pair = { pair_of };

    fn suffix(&self) -> &Suffix {
        &self.suffix
    }
}

/// Whether the mask hides a point under any of these.
#[tactic(auto, using(crate::proofs::Pairs::any_mapped))]
fn masks_under<T: Suffixed>(pairs: &[T], mask: &Suffix, key: &UserKey) -> bool
    ensures { result ≡ masks (map T.pair pairs.now) mask.now key.now }
{
    let suffix = key.suffix();
    !mask.bytes().is_empty() && !suffix.is_empty() && has_hiding(pairs, mask, suffix)
}

/// Whether a pair is between the mask and the suffix of a point.
fn has_hiding<T: Suffixed>(pairs: &[T], mask: &Suffix, suffix: &[u8]) -> bool
    requires { IsSuffix suffix.now }
    ensures { result ≡ list_any (λ p. hides mask.now suffix.now (T.pair p)) pairs.now }
{
    pairs.iter().any(|pair| hides(mask, suffix, pair))
}

/// Whether `mask <= r < suffix`, of the suffix `r` of the pair.
#[tactic(auto, using(rk_model::proofs::Orders::is_ge_is))]
fn hides<T: Suffixed>(mask: &Suffix, suffix: &[u8], pair: &T) -> bool
    requires { IsSuffix suffix.now }
    ensures { result ≡ hides mask.now suffix.now (T.pair pair.now) }
{
    *pair.suffix() >= *mask && compare_suffixes(pair.suffix().bytes(), suffix).is_lt()
}
