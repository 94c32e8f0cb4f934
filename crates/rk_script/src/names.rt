// The names that are live.
ghost use Rattle.std.specs.Prelude.{◌≡◌, OnOk};
ghost use Rattle.rk_script.specs.Asked.{answer_as, event_asked};
ghost use Rattle.rk_script.specs.Naming.{is_called, with_name, without_name};
ghost use Rattle.rk_script.specs.Script.{are_live, is_free, has_room, has_room_for, name_checks, names_after, no_names};
ghost use Rattle.rk_script.specs.Checks.{checked};

use crate::asked::Asked;
use crate::limits::{MOST_ITERATORS, MOST_SNAPSHOTS, MOST_WRITERS};
use crate::named::Named;
use crate::words::is_word;
use crate::{Why, find};
use rk_outside::{Bytes, NoMemory};
use std::alloc::Global;
use std::marker::Model;

/// The names of writers, iterators and snapshots that are live. Contracts see the three lists.
#[derive(Debug, Drop)]
pub(crate) struct LiveNames {
    writers: Vec<Bytes>,
    iterators: Vec<Bytes>,
    snapshots: Vec<Bytes>,
}

impl Model for LiveNames {
    ghost use Rattle.rk_script.specs.Script.{Names};

    ghost Value = { Names };

    ghost view = { λ n. record { writers = n.writers.items; iterators = n.iterators.items; snapshots = n.snapshots.items } };
}

impl LiveNames {
    pub(crate) fn new(alloc: Global) -> LiveNames
        ensures { result ≡ no_names }
    {
        LiveNames {
            writers: Vec::new(alloc),
            iterators: Vec::new(alloc),
            snapshots: Vec::new(alloc),
        }
    }

    /// What is asked for, where the names let it stand.
    pub(crate) fn check<'a>(&self, asked: Asked<'a>) -> Result<Asked<'a>, Why>
        ensures { answer_as event_asked result ≡ checked (name_checks self.now (event_asked asked.entry)) (event_asked asked.entry) }
    {
        if !self.are_live(&asked) {
            Err(Why::NoName)
        } else if !self.is_free(&asked) {
            Err(Why::Taken)
        } else if !self.has_room(&asked) {
            Err(Why::TooMany)
        } else {
            Ok(asked)
        }
    }

    /// Whether each iterator and snapshot that a line uses is live.
    fn are_live(&self, asked: &Asked<'_>) -> bool
        ensures { result ≡ are_live self.now (event_asked asked.now) }
    {
        match asked {
            Asked::Release { name } => is_called(name, &self.snapshots),
            Asked::Iter { at: Some(at), .. } => is_called(at, &self.snapshots),
            Asked::Move { iter, .. } | Asked::Close { iter } => is_called(iter, &self.iterators),
            _ => true,
        }
    }

    /// Whether the name of a snapshot or an iterator that a line makes is free.
    fn is_free(&self, asked: &Asked<'_>) -> bool
        ensures { result ≡ is_free self.now (event_asked asked.now) }
    {
        match asked {
            Asked::Snap { name } => !is_called(name, &self.snapshots),
            Asked::Iter { name, .. } => !is_called(name, &self.iterators),
            _ => true,
        }
    }

    /// Whether there are no more names than there may be after a line.
    fn has_room(&self, asked: &Asked<'_>) -> bool
        ensures { result ≡ has_room self.now (event_asked asked.now) }
    {
        match asked {
            Asked::Batch { writer, .. } => has_room_for(writer, &self.writers),
            Asked::Snap { .. } => self.snapshots.len() < MOST_SNAPSHOTS,
            Asked::Iter { .. } => self.iterators.len() < MOST_ITERATORS,
            _ => true,
        }
    }

    /// Takes in the names of a line.
    pub(crate) fn add(&mut self, alloc: Global, asked: &Asked<'_>) -> Result<(), NoMemory>
        ensures { OnOk result (self.new ≡ names_after self.old (event_asked asked.now)) }
    {
        match asked {
            Asked::Batch { writer, .. } => add_name(alloc, &mut self.writers, writer),
            Asked::Snap { name } => Ok(self.snapshots.push(Bytes::from_slice(alloc, name)?)?),
            Asked::Release { name } => Ok(remove_name(&mut self.snapshots, name)),
            Asked::Iter { name, .. } => Ok(self.iterators.push(Bytes::from_slice(alloc, name)?)?),
            Asked::Close { iter } => Ok(remove_name(&mut self.iterators, iter)),
            Asked::Shape | Asked::Move { .. } => Ok(()),
        }
    }
}

impl Named for Bytes {
    ghost called = { λ b. b };

    fn name(&self) -> &[u8] {
        self.bytes()
    }
}

/// Whether a name is among these.
fn is_called(name: &[u8], names: &[Bytes]) -> bool
    ensures { result ≡ is_called name.now names.now }
{
    names.iter().any(|other| is_word(other.bytes(), name))
}

/// Whether a writer of this name may be live beside these.
fn has_room_for(writer: &[u8], writers: &[Bytes]) -> bool
    ensures { result ≡ has_room_for writer.now writers.now }
{
    is_called(writer, writers) || writers.len() < MOST_WRITERS
}

/// Adds a name, where it is not there.
fn add_name(alloc: Global, names: &mut Vec<Bytes>, name: &[u8]) -> Result<(), NoMemory>
    ensures { OnOk result (names.new.items ≡ with_name name.now names.old.items) }
{
    if is_called(name, names) {
        Ok(())
    } else {
        Ok(names.push(Bytes::from_slice(alloc, name)?)?)
    }
}

/// Takes the first of these names out.
fn remove_name(names: &mut Vec<Bytes>, name: &[u8])
    ensures { names.new.items ≡ without_name name.now names.old.items }
{
    if let Some(place) = find(names, name) {
        let _ = names.remove(place);
    }
}
