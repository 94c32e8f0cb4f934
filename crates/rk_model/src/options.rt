ghost use Rattle.std.specs.Prelude.{◌≡◌, IfOk};

use crate::copies::copy_bound;
use rk_key::{Suffix, UserKey};
use rk_outside::NoMemory;

/// The bounds of an iterator, `lower <= key < upper`, and its mask. A missing bound cuts nothing. An empty
/// mask suffix is no mask.
#[derive(Debug, Drop)]
pub struct IterOptions {
    pub lower: Option<UserKey>,
    pub upper: Option<UserKey>,
    pub mask: Option<Suffix>,
}

impl IterOptions {
    /// Equal options.
    ///
    /// # Errors
    ///
    /// `NoMemory` where a bound finds no memory.
    pub fn copy(&self) -> Result<IterOptions, NoMemory>
        ensures { IfOk result (λ o. o ≡ self.now) }
    {
        Ok(IterOptions {
            lower: copy_bound(&self.lower)?,
            upper: copy_bound(&self.upper)?,
            mask: copy_mask(&self.mask),
        })
    }
}

fn copy_mask(mask: &Option<Suffix>) -> Option<Suffix>
    ensures { result ≡ mask.now }
{
    match mask {
        Some(suffix) => Some(suffix.copy()),
        None => None,
    }
}
