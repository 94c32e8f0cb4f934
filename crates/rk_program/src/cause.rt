// How a run ends.
ghost use Rattle.std.specs.Prelude.{◌≡◌};
ghost use Rattle.rk_program.specs.Causes.{cause_of, refusal_of};

use rk_outside::NoMemory;
use rk_script::{ScriptError, Why};
use std::alloc::AllocError;
use std::fmt;

/// Why a run ended.
#[derive(Clone, Copy, Debug, PartialEq, Eq)]
pub enum Cause {
    /// The input was read to its end, every line was done, and the sink was finished.
    Done,
    /// The words of the command line are none that the program takes.
    Words,
    /// The first line that is not of the grammar, counted from 1, and why it is not.
    Line { line: u64, why: Why },
    /// The source gave more bytes than this limit.
    Length { limit: u64 },
    /// The source failed. It has failed so often.
    SourceFault { faults: u64 },
    /// The sink failed. It has failed so often.
    SinkFault { faults: u64 },
    /// There was no memory.
    Memory,
}

impl Cause {
    ghost use Rattle.rk_program.specs.Causes.{status_of};

    /// Why a run ended that did all, or was refused.
    pub(crate) fn of(done: Result<(), Cause>) -> Cause
        ensures { result ≡ cause_of done }
    {
        match done {
            Ok(()) => Cause::Done,
            Err(cause) => cause,
        }
    }

    /// The exit status of a run that ends so.
    pub fn status(&self) -> u8
        ensures { result ≡ status_of self.now }
    {
        match self {
            Cause::Done => 0,
            Cause::Words => 2,
            Cause::Line { .. } | Cause::Length { .. } => 3,
            Cause::SourceFault { .. } => 4,
            Cause::SinkFault { .. } => 5,
            Cause::Memory => 6,
        }
    }
}

/// What is said of a run that ended so, in one line.
impl fmt::Display for Cause {
    ghost use Rattle.std.specs.Prelude.{Some};
    ghost use Rattle.rk_program.specs.Causes.{cause_text};

    ghost output = { λ cause. Some (cause_text cause) };

    fn fmt<W: fmt::Write>(&self, f: &mut fmt::Formatter<W>) -> fmt::Result {
        match self {
            Cause::Done => f.write_str("done"),
            Cause::Words => f.write_str("words"),
            Cause::Line { line, why } => write!(f, "line {line}: {why}"),
            Cause::Length { .. } => f.write_str("file too long"),
            Cause::SourceFault { .. } => f.write_str("source fault"),
            Cause::SinkFault { .. } => f.write_str("sink fault"),
            Cause::Memory => f.write_str("memory"),
        }
    }
}

impl From<NoMemory> for Cause {
    ghost use Rattle.rk_program.specs.declared.cause.Cause.TheVariants as causes;

    ghost from_gives = { λ _ cause. cause ≡ causes.Memory };

    fn from(_: NoMemory) -> Self {
        Cause::Memory
    }
}

impl From<AllocError> for Cause {
    ghost use Rattle.rk_program.specs.declared.cause.Cause.TheVariants as causes;

    ghost from_gives = { λ _ cause. cause ≡ causes.Memory };

    fn from(_: AllocError) -> Self {
        Cause::Memory
    }
}

impl From<ScriptError> for Cause {
    ghost from_gives = { λ error cause. cause ≡ refusal_of error };

    fn from(error: ScriptError) -> Self {
        match error {
            ScriptError::Memory => Cause::Memory,
            ScriptError::BadLine { line, why } => Cause::Line { line, why },
        }
    }
}

/// How a run ended, and the vault that was handed in.
#[derive(Debug, Drop)]
pub struct Ended<V> {
    /// The exit status, which is that of the cause.
    pub status: u8,
    /// Why it ended.
    pub cause: Cause,
    /// The vault, as it was handed in.
    pub vault: V,
}

impl<V> Ended<V> {
    ghost use Rattle.std.specs.Prelude.{◌≡◌};
    ghost use Rattle.rk_program.specs.Causes.{status_of};

    // A run that ended so.
    pub(crate) fn new(cause: Cause, vault: V) -> Ended<V>
        ensures status { result.status ≡ status_of cause }
        ensures cause { result.cause ≡ cause }
        ensures vault { result.vault ≡ vault }
    {
        Ended {
            status: cause.status(),
            cause,
            vault,
        }
    }
}
