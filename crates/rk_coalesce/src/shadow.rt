// Which range keys newer ones shadow.
ghost use Rattle.std.specs.Prelude.{◌≡◌, IfOk};
ghost use Rattle.rk_coalesce.specs.Numbers.{newest_at};
ghost use Rattle.rk_coalesce.specs.Places.{TellsNewest, is_shadowed};

use crate::newest::Newest;
use crate::place::{stripe_of, suffix_of};
use rk_model::RangeKey;
use rk_outside::NoMemory;
use std::alloc::Global;

/// The newest of the range keys at each place.
pub(crate) fn newest_of(
    alloc: Global,
    keys: &[RangeKey],
    stripes: &[u64],
) -> Result<Newest, NoMemory>
    ensures { IfOk result (λ newest. TellsNewest stripes.now keys.now (newest_at newest)) }
{
    let mut newest = Newest::new(alloc);
    for key in keys {
        if let Some(stripe) = stripe_of(stripes, key.seq) {
            newest.note((stripe, suffix_of(key)), key.seq)?;
        }
    }
    Ok(newest)
}

/// Whether a newer range key of its stripe is a delete or has its suffix.
pub(crate) fn is_shadowed(newest: &Newest, stripes: &[u64], key: &RangeKey) -> bool
    ensures { result ≡ is_shadowed (newest_at newest.now) stripes.now key.now }
{
    match stripe_of(stripes, key.seq) {
        Some(stripe) => {
            key.seq < newest.number(&(stripe, None))
                || key.seq < newest.number(&(stripe, suffix_of(key)))
        }
        None => false,
    }
}
