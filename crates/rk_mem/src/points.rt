// A source of the points of a chunk.
ghost use Rattle.std.specs.Prelude.{◌≡◌, IsTrue, Some, None, true, IfOk};
ghost use Rattle.std.specs.Arc.{arc_value};
ghost use Rattle.rk_model.specs.Items.{are_keyed, keyed_points, sound};
ghost use Rattle.rk_model.specs.Standings.{free_listing};
ghost use Rattle.rk_model.specs.Listings.{stands_within};
ghost use Rattle.rk_model.specs.ListingLaws.{of_sound, listed-told, listed-rise, listed-free};
ghost use Rattle.rk_mem.specs.Chunks.{points_of};

use crate::Chunk;
use crate::shared::Shared;
use rk_key::UserKey;
use rk_model::{Cut, Entry, Lends, Listed, Sorted, Source};
use rk_outside::{Counting, NoMemory, SourceError};
use std::alloc::Global;
use std::marker::Model;
use std::sync::Arc;

// A chunk that lends its points.
#[derive(Debug, Drop)]
struct Points {
    chunk: Arc<Chunk>,
}

impl Model for Points {
    ghost use Rattle.std.specs.Prelude.{List};
    ghost use Rattle.std.specs.Arc.{arc_value};
    ghost use Rattle.rk_model.specs.declared.op.Entry.{Entry};
    ghost use Rattle.rk_mem.specs.Chunks.{points_of};

    ghost Value = { List Entry };

    ghost view = { λ s. points_of (arc_value s.chunk) };
}

impl Lends for Points {
    type Item = Shared;

    ghost items = { λ es. es };

    fn items(&self) -> &[Shared] {
        self.chunk.points()
    }
}

/// A source of the points of a chunk, in order. It reads nothing.
#[derive(Debug, Drop)]
pub struct ChunkPoints {
    listed: Listed<Points>,
}

impl Model for ChunkPoints {
    ghost use Rattle.std.specs.Prelude.{List};
    ghost use Rattle.rk_model.specs.Listings.{Placing};
    ghost use Rattle.rk_model.specs.declared.op.Entry.{Entry};

    ghost Value = { Placing (List Entry) };

    ghost view = { λ s. s.listed };
}

impl ChunkPoints {
    /// A source of the points of this chunk, at no gap. It takes no memory.
    ///
    /// # Errors
    ///
    /// None: `NoMemory` is there for a body that takes some.
    pub fn new(_: Global, chunk: Arc<Chunk>) -> Result<ChunkPoints, NoMemory>
        ensures value { IfOk result (λ s. s ≡ record { list = points_of (arc_value chunk); gap = None; forward = true }) }
        ensures told { IfOk result (λ s. sound keyed_points s.list ≡ Some (points_of (arc_value chunk))) }
        ensures keyed { IfOk result (λ _. IsTrue (are_keyed (arc_value chunk))) }
    {
        // That they are in order, and all keys are keys, is what the chunk says when it lends them.
        let _points = chunk.points();
        Ok(ChunkPoints {
            listed: Listed::new(Points { chunk }),
        })
    }
}

impl Sorted for ChunkPoints {
    type Item = Entry;

    ghost listing = { λ s. free_listing (sound keyed_points s.list) };

    ghost standing = { λ s. stands_within s.list s.gap s.forward };
}

impl<R: Counting> Source<R> for ChunkPoints {
    ghost ordered = { λ s. of_sound keyed_points s.list (λ xs. IsTrue (keyed_points xs)) (λ holds. holds) };

    ghost told = { λ s. listed-told keyed_points s.list s.gap s.forward };

    ghost rise = { λ s. listed-rise (sound keyed_points s.list) };

    ghost once = { λ s _. listed-free (sound keyed_points s.list) };

    fn seek(
        &mut self,
        reader: &mut R,
        cut: Cut<&UserKey>,
        forward: bool,
    ) -> Result<(), SourceError> {
        self.listed.seek(reader, cut, forward)
    }

    fn step(&mut self, reader: &mut R, forward: bool) -> Result<(), SourceError> {
        self.listed.step(reader, forward)
    }

    fn here(&self) -> Option<&Entry> {
        Some(Source::<R>::here(&self.listed)?.entry())
    }
}
