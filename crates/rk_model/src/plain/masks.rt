// Masks, and the values that they let through.
ghost use Rattle.std.specs.Prelude.{◌≡◌, ◌&&◌, not, false, if◌then◌else◌, None};
ghost use Rattle.std.specs.List.{list_any};
ghost use Rattle.std.specs.Option.{option_map_or};
ghost use Rattle.rk_key.specs.Keys.{suffix};
ghost use Rattle.rk_model.specs.Lists.{none_of};
ghost use Rattle.rk_model.specs.Positions.{hides};

use crate::{IterOptions, SuffixValue};
use rk_key::{Suffix, UserKey, read_suffix};
use std::alloc::Global;

/// The suffix of a key. It takes no memory.
fn suffix_of(alloc: Global, x: &UserKey) -> Suffix
    ensures { result ≡ suffix x.now }
{
    read_suffix(alloc, x.suffix()).unwrap()
}

/// Whether `mask <= r < p`, of the suffix of the pair.
#[tactic(auto, using(crate::proofs::Orders::is_ge_is))]
fn hides(mask: &Suffix, p: &Suffix, r: &SuffixValue) -> bool
    ensures { result ≡ hides mask.now p.now r.now }
{
    r.suffix >= *mask && r.suffix < *p
}

fn is_empty(bytes: &[u8]) -> bool
    ensures { result ≡ none_of bytes.now }
{
    bytes.is_empty()
}

fn has_hiding(mask: &Suffix, p: &Suffix, pairs: &[SuffixValue]) -> bool
    ensures { result ≡ list_any (hides mask.now p.now) pairs.now }
{
    pairs.iter().any(|r| hides(mask, p, r))
}

impl IterOptions {
    /// Whether the mask hides a point on the key, where the pairs are its cover. A mask that isn't empty hides
    /// a point with a suffix under a pair between the two.
    pub(crate) fn is_masked(&self, alloc: Global, x: &UserKey, pairs: &[SuffixValue]) -> bool
        ensures { result ≡ option_map_or (λ m. not (none_of m) && not (none_of (suffix x.now)) && list_any (hides m (suffix x.now)) pairs.now) self.now.mask false }
    {
        match &self.mask {
            Some(mask) => {
                let p = suffix_of(alloc, x);
                !is_empty(mask.bytes()) && !is_empty(p.bytes()) && has_hiding(mask, &p, pairs)
            }
            None => false,
        }
    }
}
