// Cells.
ghost use Rattle.std.specs.Prelude.{◌≡◌, ◌%◌, ◌<◌, IfOk, IfSome};
ghost use Rattle.std.specs.Arc.{arc_value};
ghost use Rattle.counted_slot.specs.Counting.{readers, IsTurn};

use crate::MadeOf;
use crate::held::Held;
use counted_slot::{Counted, FREE, MOST_READERS, ONE_READER, PRESENT, TAKEN};
use rk_outside::NoMemory;
use std::alloc::Global;
use std::fmt;
use std::fmt::{Debug, Formatter};
use std::marker::{Model, PhantomData};
use std::sync::Arc;

/// An input, and a place for one value that is made of it. Contracts see the input alone.
#[derive(Drop)]
pub struct Cell<I, T: MadeOf<I>> {
    input: Arc<I>,
    slot: Counted<Option<Held<I, T>>>,
}

impl<I, T: MadeOf<I>> Model for Cell<I, T> {
    ghost use Rattle.std.specs.Prelude.{◌≡◌};
    ghost use Rattle.std.specs.Arc.{arc_value};

    ghost Value = { I };

    ghost coded = { I.code };

    ghost view = { λ c. arc_value c.input };

    ghost invariant = { λ c. c.slot ≡ arc_value c.input };
}

/// The word of a slot with one reader more, where its value may be read. The word's low two bits are its state,
/// and the next thirty count its readers.
fn with_reader(word: u64) -> Option<u64>
    ensures { IfSome result (λ new. IsTurn word new × (new % 4 < 3) × (readers word < readers new)) }
{
    let readers = word % 0x1_0000_0000 / 4;
    if word % 4 == PRESENT && readers < MOST_READERS {
        Some(word + ONE_READER)
    } else {
        None
    }
}

impl<I, T: MadeOf<I> + Drop> Cell<I, T> {
    /// An empty cell with this input. It takes no memory.
    ///
    /// # Errors
    ///
    /// None: `NoMemory` is there for a body that takes some.
    pub fn new(_: Global, input: Arc<I>) -> Result<Cell<I, T>, NoMemory>
        ensures { IfOk result (λ c. c ≡ arc_value input) }
    {
        let slot = Counted::new(None, &*input);
        Ok(Cell { input, slot })
    }

    /// Lends the input. It takes no memory.
    pub fn input(&self) -> &I
        ensures { result.now ≡ self.now }
    {
        &self.input
    }

    /// The value, where somebody has offered one. It takes no memory, and waits for nobody.
    pub fn look(&self) -> Option<Arc<T>>
        ensures { IfSome result (λ value. T.made_of self.now (arc_value value)) }
    {
        for _ in 0..u64::MAX {
            let seen = self.slot.load();
            let new = with_reader(seen)?;
            let (found, claim) = self.slot.turn(seen, new);
            if found == seen {
                let value = claim
                    .get()
                    .as_ref()
                    .and_then(|held| Arc::try_clone(&held.value).ok());
                claim.leave();
                return value;
            }
            claim.done();
        }
        None
    }

    /// Puts the value into the cell where there is none, and drops it where there is. It takes no memory, and
    /// waits for nobody.
    pub fn offer(&self, value: Arc<T>)
        requires { T.made_of self.now (arc_value value) }
    {
        let (found, claim) = self.slot.turn(FREE, TAKEN);
        if found == FREE {
            let held = Held {
                value,
                input: PhantomData,
            };
            claim.put(Some(held), PRESENT);
        } else {
            claim.done();
        }
    }
}

impl<I, T: MadeOf<I>> Debug for Cell<I, T> {
    fn fmt<W: fmt::Write>(&self, f: &mut Formatter<W>) -> fmt::Result {
        f.debug_struct("Cell").finish_non_exhaustive()
    }
}
