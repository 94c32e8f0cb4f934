// Why a line gives no event, and what `?` makes of a refusal of a layer below.
ghost use Rattle.std.specs.Prelude.{◌≡◌};
ghost use Rattle.rk_script.specs.declared.error.LineError.TheVariants as line_error;
ghost use Rattle.rk_script.specs.declared.line.ScriptError.TheVariants as script_error;

use crate::{ScriptError, Why};
use rk_outside::NoMemory;
use std::alloc::{AllocError, AllocFailed};

/// Why a line gives no event.
#[derive(Clone, Copy, Debug)]
pub(crate) enum LineError {
    /// There was no memory.
    Memory,
    /// The line is not of the grammar.
    Bad(Why),
}

/// What is read from a line, or from a part of it.
pub(crate) type Read<T> = Result<T, LineError>;

impl From<Why> for LineError {
    ghost from_gives = { λ why e. e ≡ line_error.Bad why };

    fn from(why: Why) -> Self {
        LineError::Bad(why)
    }
}

impl From<NoMemory> for LineError {
    ghost from_gives = { λ _ e. e ≡ line_error.Memory };

    fn from(_: NoMemory) -> Self {
        LineError::Memory
    }
}

impl From<AllocError> for LineError {
    ghost from_gives = { λ _ e. e ≡ line_error.Memory };

    fn from(_: AllocError) -> Self {
        LineError::Memory
    }
}

impl<T: Drop> From<AllocFailed<T>> for LineError {
    ghost from_gives = { λ _ e. e ≡ line_error.Memory };

    fn from(_: AllocFailed<T>) -> Self {
        LineError::Memory
    }
}

impl From<AllocError> for ScriptError {
    ghost from_gives = { λ _ e. e ≡ script_error.Memory };

    fn from(_: AllocError) -> Self {
        ScriptError::Memory
    }
}

impl<T: Drop> From<AllocFailed<T>> for ScriptError {
    ghost from_gives = { λ _ e. e ≡ script_error.Memory };

    fn from(_: AllocFailed<T>) -> Self {
        ScriptError::Memory
    }
}

impl From<NoMemory> for ScriptError {
    ghost from_gives = { λ _ e. e ≡ script_error.Memory };

    fn from(_: NoMemory) -> Self {
        ScriptError::Memory
    }
}
