//! The rule of the table, and what each step tells. These types are for proofs alone.
ghost use Rattle.std.specs.Prelude.{ℕ};

use crate::kept::Kept;
use crate::view::View;
use atomic_table::{Join, Play, Split, TableRule};
use std::marker::{Brand, PhantomData};
use std::snapshot::Snapshot;

pub struct Law;

impl<T: Kept> TableRule<Option<T>, View<T, T::Event, T::Origin>, Snapshot<T>> for Law {
    ghost use Rattle.rk_lock.specs.Views.{fresh};
    ghost use Rattle.rk_lock.specs.Rule.{Ruled};

    ghost holds = { λ _. Ruled T.ticket T.stands };

    ghost first = { λ about. fresh about.value };
}

/// The first pass learns its origin.
pub struct FindOrigin;

impl<T: Kept> Play<Option<T>, View<T, T::Event, T::Origin>> for FindOrigin {
    ghost use Rattle.rk_lock.specs.Plays.{found_origin};

    ghost then = { found_origin T.ticket T.stands };
}

pub struct Draw;

impl<T: Kept> Play<Option<T>, View<T, T::Event, T::Origin>> for Draw {
    ghost use Rattle.rk_lock.specs.Plays.{drew};

    ghost then = { drew };
}

/// A look at the number served.
pub struct Look;

impl<T: Kept> Play<Option<T>, View<T, T::Event, T::Origin>> for Look {
    ghost use Rattle.rk_lock.specs.Plays.{looked};

    ghost then = { looked T.ticket T.stands };
}

pub struct Take;

impl<T: Kept> Play<Option<T>, View<T, T::Event, T::Origin>> for Take {
    ghost use Rattle.rk_lock.specs.Plays.{took};

    ghost then = { took T.ticket T.stands };
}

/// What a caller tells of the event of its turn. Each call picks it, by `Brand`.
pub trait Telling<E> {
    ghost told: { E → Type 0 };
}

impl<E> Telling<E> for Brand {
    ghost told = { λ _. Unit {0} };
}

pub struct Count<J> {
    of: PhantomData<J>,
}

impl<T: Kept, J: Telling<T::Event>> Play<Option<T>, View<T, T::Event, T::Origin>> for Count<J> {
    ghost use Rattle.rk_lock.specs.Plays.{added};

    ghost then = { added T.ticket T.stands J.told };
}

pub struct GiveBack;

impl<T: Kept> Play<Option<T>, View<T, T::Event, T::Origin>> for GiveBack {
    ghost use Rattle.rk_lock.specs.Plays.{gave};

    ghost then = { gave };
}

pub struct ServeNext;

impl<T: Kept> Play<Option<T>, View<T, T::Event, T::Origin>> for ServeNext {
    ghost use Rattle.rk_lock.specs.Plays.{served};

    ghost then = { served };
}

/// A pass is split off.
pub struct SplitOff;

impl<T, E, O> Split<View<T, E, O>> for SplitOff {
    ghost use Rattle.rk_lock.specs.Views.{split_from, split_off};

    ghost left = { split_from };

    ghost right = { split_off };
}

/// A pass is taken back.
pub struct TakeBack;

impl<T, E, O> Join<View<T, E, O>> for TakeBack {
    ghost use Rattle.rk_lock.specs.Views.{joined, spent};

    ghost both = { joined };

    ghost spent = { spent };
}

/// A look at the number served, which tells that one of two histories begins the other.
pub struct Compare;

impl<T: Kept> Play<Option<T>, View<T, T::Event, T::Origin>> for Compare {
    ghost use Rattle.rk_lock.specs.Plays.{matched};

    ghost then = { matched };
}
