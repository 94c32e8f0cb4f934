ghost use Rattle.std.specs.Prelude.{◌≡◌};
ghost use Rattle.rk_key.specs.declared.error.KeyError.TheVariants.{Memory};

use std::alloc::AllocError;

/// What the refused bytes were to be.
#[derive(Clone, Copy, Debug, PartialEq, Eq)]
pub enum Which {
    /// A key.
    Key,
    /// The start of a span.
    Start,
    /// The end of a span.
    End,
    /// A suffix.
    Suffix,
}

/// Why a key or a suffix was not made.
#[derive(Clone, Copy, Debug, PartialEq, Eq)]
pub enum KeyError {
    /// There is no memory for the bytes.
    Memory,
    /// The bytes are no key, or no suffix. `at` is the length of their longest prefix that begins one.
    BadKey { which: Which, at: usize },
}

impl From<AllocError> for KeyError {
    ghost from_gives = { λ _ e. e ≡ Memory };

    fn from(_error: AllocError) -> KeyError {
        KeyError::Memory
    }
}
