ghost use Rattle.std.specs.Prelude.{◌≡◌, IfOk};

use crate::copies::copy_key;
use rk_key::UserKey;
use rk_outside::NoMemory;

/// Where an iterator stands.
#[derive(Debug, Drop)]
pub enum Cursor {
    /// It has not moved yet.
    Fresh,
    /// Before all positions.
    Start,
    /// At a key.
    At(UserKey),
    /// After all positions.
    End,
}

impl Cursor {
    /// An equal cursor.
    ///
    /// # Errors
    ///
    /// `NoMemory` where its key finds no memory.
    pub fn copy(&self) -> Result<Cursor, NoMemory>
        ensures { IfOk result (λ c. c ≡ self.now) }
    {
        match self {
            Cursor::Fresh => Ok(Cursor::Fresh),
            Cursor::Start => Ok(Cursor::Start),
            Cursor::At(key) => Ok(Cursor::At(copy_key(key)?)),
            Cursor::End => Ok(Cursor::End),
        }
    }
}
