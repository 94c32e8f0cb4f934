// The lines of a command file, and why a file is refused.
use rk_key::{Suffix, UserKey};
use rk_outside::Bytes;
use std::fmt;

/// A line that is not skipped, with its number, counted from 1 over all lines.
#[derive(Debug, Drop)]
pub struct Line {
    pub number: u64,
    pub event: Event,
}

/// What a line asks for: its words, decoded. Keys, suffixes and values of batches are any bytes, since a batch
/// tests them itself.
#[derive(Debug, Drop)]
pub enum Event {
    /// Adds a point set to a writer's batch.
    Put {
        writer: Bytes,
        key: Bytes,
        value: Bytes,
    },
    /// Adds a point delete to a writer's batch.
    Del {
        writer: Bytes,
        key: Bytes,
    },
    /// Adds a range key set to a writer's batch.
    RangeSet {
        writer: Bytes,
        start: Bytes,
        end: Bytes,
        suffix: Bytes,
        value: Bytes,
    },
    /// Adds a range key unset to a writer's batch.
    RangeUnset {
        writer: Bytes,
        start: Bytes,
        end: Bytes,
        suffix: Bytes,
    },
    /// Adds a range key delete to a writer's batch.
    RangeDel {
        writer: Bytes,
        start: Bytes,
        end: Bytes,
    },
    /// Commits a writer's batch.
    Commit {
        writer: Bytes,
    },
    /// Makes a snapshot.
    Snap {
        name: Bytes,
    },
    /// Gives a snapshot up.
    Release {
        name: Bytes,
    },
    /// Asks for the sizes of the store.
    Shape,
    /// Opens an iterator, at a snapshot or at the last commit.
    Iter {
        name: Bytes,
        at: Option<Bytes>,
        lower: Option<UserKey>,
        upper: Option<UserKey>,
        mask: Option<Suffix>,
    },
    /// Moves an iterator to its least position.
    First {
        iter: Bytes,
    },
    /// Moves an iterator to its greatest position.
    Last {
        iter: Bytes,
    },
    /// Moves an iterator to its next position.
    Next {
        iter: Bytes,
    },
    /// Moves an iterator to the position before.
    Prev {
        iter: Bytes,
    },
    /// Moves an iterator to a key, or the least position above it.
    SeekGe {
        iter: Bytes,
        key: UserKey,
    },
    /// Moves an iterator to the greatest position below a key.
    SeekLt {
        iter: Bytes,
        key: UserKey,
    },
    /// Drops an iterator.
    Close {
        iter: Bytes,
    },
}

/// Why a line is not of the grammar. Of several causes the first in this order is named.
#[derive(Clone, Copy, Debug, PartialEq, Eq)]
pub enum Why {
    /// A byte is neither a space nor a visible ASCII character.
    Byte,
    /// The first word, or a fixed word after it, is not one of the grammar, or an option of `iter` is repeated
    /// or out of order.
    Word,
    /// A word is missing or left over.
    Count,
    /// A name is not of its form.
    Name,
    /// A word for bytes has a `%` without two lower-case hexadecimal digits, and is not `%-`.
    Escape,
    /// A key of a seek or of a bound is not of the form of a key.
    Key,
    /// A mask is empty or not of the form of a suffix.
    Suffix,
    /// There is no iterator or snapshot of this name.
    NoName,
    /// There is an iterator or a snapshot of this name already.
    Taken,
    /// There are as many things of this kind as there may be at once.
    TooMany,
}

impl fmt::Display for Why {
    ghost use Rattle.std.specs.Prelude.{Some};
    ghost use Rattle.rk_script.specs.Reasons.{why_text};

    ghost output = { λ why. Some (why_text why) };

    fn fmt<W: fmt::Write>(&self, f: &mut fmt::Formatter<W>) -> fmt::Result {
        f.write_str(match self {
            Why::Byte => "Byte",
            Why::Word => "Word",
            Why::Count => "Count",
            Why::Name => "Name",
            Why::Escape => "Escape",
            Why::Key => "Key",
            Why::Suffix => "Suffix",
            Why::NoName => "NoName",
            Why::Taken => "Taken",
            Why::TooMany => "TooMany",
        })
    }
}

/// Why a file could not be read.
#[derive(Clone, Copy, Debug, PartialEq, Eq)]
pub enum ScriptError {
    /// There was no memory.
    Memory,
    /// The first line that is not of the grammar.
    BadLine { line: u64, why: Why },
}
