// What a line asks for, read where it stands.
ghost use Rattle.std.specs.Prelude.{◌≡◌, IfOk};
ghost use Rattle.std.specs.Option.{option_copied};
ghost use Rattle.rk_script.specs.Asked.{changed, event_asked, moved};

use crate::Event;
use crate::escape::Escaped;
use rk_key::{Suffix, UserKey};
use rk_outside::{Bytes, NoMemory};
use std::alloc::Global;

/// What a line asks for, before it is decoded. Its words are tested, and stay where they stand in the file, but for
/// the keys and masks that the grammar tests: these are decoded, and take memory only where they are long.
#[derive(Debug, Drop)]
pub(crate) enum Asked<'a> {
    /// Adds to a writer's batch, or commits it.
    Batch {
        writer: &'a [u8],
        change: Change<'a>,
    },
    /// Makes a snapshot.
    Snap {
        name: &'a [u8],
    },
    /// Gives a snapshot up.
    Release {
        name: &'a [u8],
    },
    /// Asks for the sizes of the store.
    Shape,
    /// Opens an iterator, at a snapshot or at the last commit.
    Iter {
        name: &'a [u8],
        at: Option<&'a [u8]>,
        lower: Option<UserKey>,
        upper: Option<UserKey>,
        mask: Option<Suffix>,
    },
    /// Moves an iterator.
    Move {
        iter: &'a [u8],
        to: Target,
    },
    /// Drops an iterator.
    Close {
        iter: &'a [u8],
    },
}

/// What is done to a writer's batch.
#[derive(Debug, Drop)]
pub(crate) enum Change<'a> {
    Put {
        key: Escaped<'a>,
        value: Escaped<'a>,
    },
    Del {
        key: Escaped<'a>,
    },
    RangeSet {
        start: Escaped<'a>,
        end: Escaped<'a>,
        suffix: Escaped<'a>,
        value: Escaped<'a>,
    },
    RangeUnset {
        start: Escaped<'a>,
        end: Escaped<'a>,
        suffix: Escaped<'a>,
    },
    RangeDel {
        start: Escaped<'a>,
        end: Escaped<'a>,
    },
    Commit,
}

/// Where an iterator is moved.
#[derive(Debug, Drop)]
pub(crate) enum Target {
    First,
    Last,
    Next,
    Prev,
    SeekGe { key: UserKey },
    SeekLt { key: UserKey },
}

impl<'a> Asked<'a> {
    /// The event that is asked for.
    pub(crate) fn decode(self, alloc: Global) -> Result<Event, NoMemory>
        ensures { IfOk result (λ event. event ≡ event_asked self.entry) }
    {
        match self {
            Asked::Batch { writer, change } => {
                change.decode(alloc, Bytes::from_slice(alloc, writer)?)
            }
            Asked::Snap { name } => Ok(Event::Snap {
                name: Bytes::from_slice(alloc, name)?,
            }),
            Asked::Release { name } => Ok(Event::Release {
                name: Bytes::from_slice(alloc, name)?,
            }),
            Asked::Shape => Ok(Event::Shape),
            Asked::Iter {
                name,
                at,
                lower,
                upper,
                mask,
            } => Ok(Event::Iter {
                name: Bytes::from_slice(alloc, name)?,
                at: copy_if_there(alloc, at)?,
                lower,
                upper,
                mask,
            }),
            Asked::Move { iter, to } => Ok(to.of(Bytes::from_slice(alloc, iter)?)),
            Asked::Close { iter } => Ok(Event::Close {
                iter: Bytes::from_slice(alloc, iter)?,
            }),
        }
    }
}

/// A copy of a name, where there is one.
fn copy_if_there(alloc: Global, name: Option<&[u8]>) -> Result<Option<Bytes>, NoMemory>
    ensures { IfOk result (λ copy. copy ≡ option_copied name.entry) }
{
    match name {
        Some(name) => Ok(Some(Bytes::from_slice(alloc, name)?)),
        None => Ok(None),
    }
}

impl<'a> Change<'a> {
    /// The event that does this to the batch of a writer.
    fn decode(self, alloc: Global, writer: Bytes) -> Result<Event, NoMemory>
        ensures { IfOk result (λ event. event ≡ changed writer self.entry) }
    {
        Ok(match self {
            Change::Put { key, value } => Event::Put {
                writer,
                key: key.decode(alloc)?,
                value: value.decode(alloc)?,
            },
            Change::Del { key } => Event::Del {
                writer,
                key: key.decode(alloc)?,
            },
            Change::RangeSet {
                start,
                end,
                suffix,
                value,
            } => Event::RangeSet {
                writer,
                start: start.decode(alloc)?,
                end: end.decode(alloc)?,
                suffix: suffix.decode(alloc)?,
                value: value.decode(alloc)?,
            },
            Change::RangeUnset { start, end, suffix } => Event::RangeUnset {
                writer,
                start: start.decode(alloc)?,
                end: end.decode(alloc)?,
                suffix: suffix.decode(alloc)?,
            },
            Change::RangeDel { start, end } => Event::RangeDel {
                writer,
                start: start.decode(alloc)?,
                end: end.decode(alloc)?,
            },
            Change::Commit => Event::Commit { writer },
        })
    }
}

impl Target {
    /// The event that moves an iterator there.
    fn of(self, iter: Bytes) -> Event
        ensures { result ≡ moved iter self }
    {
        match self {
            Target::First => Event::First { iter },
            Target::Last => Event::Last { iter },
            Target::Next => Event::Next { iter },
            Target::Prev => Event::Prev { iter },
            Target::SeekGe { key } => Event::SeekGe { iter, key },
            Target::SeekLt { key } => Event::SeekLt { iter, key },
        }
    }
}
