//! A source of one of two kinds.
ghost use Rattle.std.specs.Prelude.{◌≡◌};

use rk_key::UserKey;
use rk_model::{Cut, Sorted, Source};
use rk_outside::{Counting, SourceError};

/// A source of one of two kinds, such as one in memory and one of tables. It is in all that source.
#[derive(Debug, Drop)]
pub enum Either<A, B> {
    /// A source of the first kind.
    First(A),
    /// A source of the second kind.
    Second(B),
}

impl<A: Sorted, B: Sorted<Item = A::Item>> Sorted for Either<A, B> {
    ghost use Rattle.rk_sources.specs.declared.either.Either.TheVariants.{First, Second};

    type Item = A::Item;

    ghost listing = { elim [ First a ↦ A.listing a | Second b ↦ B.listing b ] };

    ghost standing = { elim [ First a ↦ A.standing a | Second b ↦ B.standing b ] };
}

impl<R: Counting, A: Source<R>, B: Source<R, Item = A::Item>> Source<R> for Either<A, B> {
    ghost use Rattle.rk_sources.specs.declared.either.Either.TheVariants.{First, Second};

    ghost ordered = { elim [ First a ↦ A.ordered a | Second b ↦ B.ordered b ] };

    ghost told = { elim [ First a ↦ A.told a | Second b ↦ B.told b ] };

    ghost rise = { elim [ First a ↦ A.rise a | Second b ↦ B.rise b ] };

    ghost once = { elim [ First a ↦ A.once a | Second b ↦ B.once b ] };

    fn seek(
        &mut self,
        reader: &mut R,
        cut: Cut<&UserKey>,
        forward: bool,
    ) -> Result<(), SourceError> {
        match self {
            Either::First(source) => source.seek(reader, cut, forward),
            Either::Second(source) => source.seek(reader, cut, forward),
        }
    }

    fn pass(
        &mut self,
        reader: &mut R,
        cut: Cut<&UserKey>,
        forward: bool,
    ) -> Result<(), SourceError> {
        match self {
            Either::First(source) => source.pass(reader, cut, forward),
            Either::Second(source) => source.pass(reader, cut, forward),
        }
    }

    fn step(&mut self, reader: &mut R, forward: bool) -> Result<(), SourceError> {
        match self {
            Either::First(source) => source.step(reader, forward),
            Either::Second(source) => source.step(reader, forward),
        }
    }

    fn here(&self) -> Option<&A::Item> {
        match self {
            Either::First(source) => source.here(),
            Either::Second(source) => source.here(),
        }
    }
}
