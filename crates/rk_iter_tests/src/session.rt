// A run of a command file of which each commit is a chunk.
ghost use Rattle.std.specs.Prelude.{◌≡◌};

use crate::chunks::Chunks;
use rk_batch::Batch;
use rk_iter::Iter;
use rk_model::IterOptions;
use rk_outside::Bytes;
use rk_script::{Event, Named, find, read_script};
use rk_walks::{Step, Walks, add_op, push_lent};
use std::alloc::Global;
use std::test::Fail;

/// An open iterator and its name.
#[derive(Drop)]
struct Open {
    name: Bytes,
    iter: Iter,
}

impl Named for Open {
    ghost called = { λ o. o.name };

    fn name(&self) -> &[u8] {
        self.name.bytes()
    }
}

/// A run of a file with one writer: its batch, the chunks of its commits, the open iterators, and what was shown.
#[derive(Drop)]
struct Session {
    alloc: Global,
    batch: Batch,
    chunks: Chunks,
    iters: Vec<Open>,
    shown: Vec<u8>,
}

// The iterator that a line moves, and the move.
fn move_of(event: &Event) -> Option<(&Bytes, Step<'_>)> {
    match event {
        Event::First { iter } => Some((iter, Step::First)),
        Event::Last { iter } => Some((iter, Step::Last)),
        Event::Next { iter } => Some((iter, Step::Next)),
        Event::Prev { iter } => Some((iter, Step::Prev)),
        Event::SeekGe { iter, key } => Some((iter, Step::Ge(key.bytes()))),
        Event::SeekLt { iter, key } => Some((iter, Step::Lt(key.bytes()))),
        _ => None,
    }
}

impl Session {
    fn new(alloc: Global) -> Result<Session, Fail> {
        Ok(Session {
            alloc,
            batch: Batch::new(alloc)?,
            chunks: Chunks::new(alloc),
            iters: Vec::new(alloc),
            shown: Vec::new(alloc),
        })
    }

    // Does what a line asks for.
    fn line(&mut self, event: Event) -> Result<(), Fail> {
        match move_of(&event) {
            Some((name, step)) => self.step(name, step),
            None => self.prepare(event),
        }
    }

    fn prepare(&mut self, event: Event) -> Result<(), Fail> {
        match event {
            Event::Commit { .. } => self.chunks.commit(self.batch.take_ops()),
            Event::Iter {
                name,
                at: None,
                lower,
                upper,
                mask,
            } => self.open(name, &IterOptions { lower, upper, mask }),
            op => add_op(&mut self.batch, &op),
        }
    }

    fn open(&mut self, name: Bytes, options: &IterOptions) -> Result<(), Fail> {
        let pins = self.chunks.pins()?;
        let iter = Iter::open(self.alloc, pins, options)?;
        self.iters.push(Open { name, iter })?;
        Ok(())
    }

    // Moves an iterator, and shows what it lends then.
    fn step(&mut self, name: &Bytes, step: Step<'_>) -> Result<(), Fail> {
        let i = find(&self.iters, name.bytes()).ok_or("no iterator of this name")?;
        let iter = &mut self.iters[i].iter;
        let there = iter.make(self.alloc, step)?;
        push_lent(&mut self.shown, name.bytes(), there, iter.lent())
    }
}

/// What is shown on the moves of a file.
pub(super) fn shown(alloc: Global, file: &[u8]) -> Result<Vec<u8>, Fail> {
    let mut session = Session::new(alloc)?;
    for line in read_script(alloc, file)? {
        session.line(line.event)?;
    }
    Ok(session.shown)
}
