// What stands in a cell's slot.
ghost use Rattle.std.specs.Arc.{arc_value};

use crate::MadeOf;
use counted_slot::Fits;
use std::marker::PhantomData;
use std::sync::Arc;

/// A shared value. In the slot of a cell it is made of the cell's input.
#[derive(Drop)]
pub(crate) struct Held<I, T: MadeOf<I>> {
    pub value: Arc<T>,
    pub input: PhantomData<I>,
}

impl<I, T: MadeOf<I>> Fits for Held<I, T> {
    type Tag = I;

    ghost fits = { λ input held. T.made_of input (arc_value held.value) };
}
