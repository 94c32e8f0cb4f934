// Walks of iterators, and what is shown on the way.
use crate::text::{Lent, push_lent};
use rk_iter::Iter;
use rk_key::read_key;
use rk_model::Plain;
use std::alloc::Global;
use std::test::Fail;

/// A move.
#[derive(Clone, Copy, Debug)]
pub enum Step<'a> {
    /// To the first position.
    First,
    /// To the last position.
    Last,
    /// To the next position.
    Next,
    /// To the position before.
    Prev,
    /// A seek of the first position from the key of these bytes on.
    Ge(&'a [u8]),
    /// A seek of the last position below the key of these bytes.
    Lt(&'a [u8]),
}

/// What makes moves.
pub trait Walks {
    /// Makes a move, and answers whether it is at a key then.
    ///
    /// # Errors
    ///
    /// Where the move is refused, or the bytes are no key.
    fn make(&mut self, alloc: Global, step: Step<'_>) -> Result<bool, Fail>;

    /// All that it lends.
    fn lent(&self) -> Lent<'_>;
}

impl Walks for Iter {
    fn make(&mut self, alloc: Global, step: Step<'_>) -> Result<bool, Fail> {
        let answer = match step {
            Step::First => self.first(),
            Step::Last => self.last(),
            Step::Next => self.next(),
            Step::Prev => self.prev(),
            Step::Ge(key) => self.seek_ge(&read_key(alloc, key)?),
            Step::Lt(key) => self.seek_lt(&read_key(alloc, key)?),
        };
        Ok(answer?)
    }

    fn lent(&self) -> Lent<'_> {
        Lent {
            cursor: self.cursor(),
            key: self.key(),
            point_and_range: self.has_point_and_range(),
            value: self.value(),
            bounds: self.range_bounds(),
            pairs: self.range_keys(),
            changed: self.range_key_changed(),
        }
    }
}

impl Walks for Plain {
    fn make(&mut self, alloc: Global, step: Step<'_>) -> Result<bool, Fail> {
        let answer = match step {
            Step::First => self.first(),
            Step::Last => self.last(),
            Step::Next => self.next(),
            Step::Prev => self.prev(),
            Step::Ge(key) => self.seek_ge(&read_key(alloc, key)?),
            Step::Lt(key) => self.seek_lt(&read_key(alloc, key)?),
        };
        Ok(answer?)
    }

    fn lent(&self) -> Lent<'_> {
        Lent {
            cursor: self.cursor(),
            key: self.key(),
            point_and_range: self.has_point_and_range(),
            value: self.value(),
            bounds: self.range_bounds(),
            pairs: self.range_keys(),
            changed: self.range_key_changed(),
        }
    }
}

/// What is shown before a walk and behind each of its moves, a line for each.
///
/// # Errors
///
/// Where a move is refused, what is lent does not agree, or memory is wanting.
pub fn shown<W: Walks>(alloc: Global, walks: &mut W, steps: &[Step<'_>]) -> Result<Vec<u8>, Fail> {
    let mut shown = Vec::new(alloc);
    push_lent(&mut shown, b"i", false, walks.lent())?;
    for step in steps {
        let there = walks.make(alloc, *step)?;
        push_lent(&mut shown, b"i", there, walks.lent())?;
    }
    Ok(shown)
}
