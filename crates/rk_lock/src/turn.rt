//! The lock, and a caller's pass.
ghost use Rattle.std.specs.Prelude.{◌≡◌};

use crate::kept::Kept;
use crate::rule::Law;
use crate::view::View;
use atomic_table::{Seat, Table};
use std::alloc::Global;
use std::snapshot::Snapshot;

/// A ticket lock around a value, with the history of its turns.
#[derive(Drop)]
pub struct Turn<T: Kept> {
    pub(crate) table: Table<Option<T>, View<T, T::Event, T::Origin>, Snapshot<T>, Law, Global>,
    ghost sized: { (table.shared.table_id.words ≡ 3) × (table.shared.table_id.slots ≡ 1) },
}

/// A caller's token: the origin, the history that it has seen, and its tickets. It has no bytes.
#[derive(Drop)]
pub struct Pass<T: Kept> {
    pub(crate) seat: Seat<Option<T>, View<T, T::Event, T::Origin>>,
}

/// There was no memory. The value comes back.
#[derive(Drop)]
pub struct NoRoom<T> {
    pub value: T,
}
