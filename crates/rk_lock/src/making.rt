//! A new lock.
ghost use Rattle.std.specs.Prelude.{◌≡◌, [], ◌∷◌, Some, IfOk, IfErr};
ghost use Rattle.rk_lock.specs.Passes.{view, IsOf, IsOutside, first_of};

use crate::kept::Kept;
use crate::rule::FindOrigin;
use crate::turn::{NoRoom, Pass, Turn};
use atomic_table::{Refused, Table};
use std::alloc::{AllocFailed, Global};
use std::snapshot::Snapshot;

// The table's one slot.
fn one_slot<T>(alloc: Global, value: T) -> Result<Vec<Option<T>>, NoRoom<T>>
    ensures ok { IfOk result (λ v. v.items ≡ Some value ∷ []) }
    ensures err { IfErr result (λ n. n.value ≡ value) }
{
    let mut slots = Vec::new(alloc);
    let Err(AllocFailed { value }) = slots.push(Some(value)) else {
        return Ok(slots);
    };
    slots.destroy_empty();
    let Some(value) = value else { unreachable!() };
    Err(NoRoom { value })
}

fn only<T>(mut slots: Vec<Option<T>>) -> T
    requires { (x : T) × (slots.items ≡ Some x ∷ []) }
    ensures { slots.items ≡ Some result ∷ [] }
{
    let Some(Some(value)) = slots.pop() else {
        unreachable!()
    };
    slots.destroy_empty();
    value
}

impl<T: Kept> Turn<T> {
    /// A lock around the value, and the first pass, which has an origin from which the value stands for no event.
    ///
    /// # Errors
    ///
    /// `NoRoom` where there is no memory. The value comes back.
    pub fn new(alloc: Global, value: T) -> Result<(Turn<T>, Pass<T>), NoRoom<T>>
        requires { (o : T.Origin) × T.stands value o [] }
        ensures lock { IfOk result (λ r. IsOf r.0 r.1 × IsOutside r.1) }
        ensures origin { IfOk result (λ r. (o : T.Origin) × T.stands value o [] × (view r.1 ≡ first_of o)) }
        ensures err { IfErr result (λ n. n.value ≡ value) }
    {
        let about = Snapshot::of(&value);
        let slots = one_slot(alloc, value)?;
        match Table::new(alloc, &[0, 0, 0], slots, &about) {
            Ok((table, mut seat)) => {
                table.shared.load::<FindOrigin>(&mut seat, 0);
                Ok((Turn { table }, Pass { seat }))
            }
            Err(Refused { slots }) => Err(NoRoom { value: only(slots) }),
        }
    }
}
