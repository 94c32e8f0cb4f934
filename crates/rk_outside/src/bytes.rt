// A list of bytes of its own.
ghost use Rattle.std.specs.Prelude.{◌≡◌, IfOk, nat_eq};
ghost use Rattle.std.specs.Cmp.{partial_equiv_from_equiv};
ghost use Rattle.std.specs.Cmp.Lexicographic.{nat_list_eq_equiv, pointwise};

use crate::NoMemory;
use std::alloc::Global;
use std::marker::Model;

/// A list of bytes. Contracts see the list.
#[derive(Debug, Drop)]
pub struct Bytes {
    bytes: Vec<u8>,
}

impl Model for Bytes {
    ghost use Rattle.std.specs.Prelude.{List, ℕ};

    ghost Value = { List ℕ };

    ghost view = { λ b. b.bytes.items };
}

impl Bytes {
    /// These bytes, copied.
    ///
    /// # Errors
    ///
    /// [`NoMemory`] where the copy finds no memory.
    pub fn from_slice(alloc: Global, bytes: &[u8]) -> Result<Bytes, NoMemory>
        ensures { IfOk result (λ b. b ≡ bytes.now) }
    {
        Ok(Bytes::from_vec(bytes.to_vec(alloc)?))
    }

    /// The bytes of a vector, which is kept as it is. It takes no memory.
    pub fn from_vec(bytes: Vec<u8>) -> Bytes
        ensures { result ≡ bytes.items }
    {
        Bytes { bytes }
    }

    /// Gives the vector back. It takes no memory.
    pub fn into_vec(self) -> Vec<u8>
        ensures { result.items ≡ self }
    {
        self.bytes
    }

    /// Lends the bytes.
    pub fn bytes(&self) -> &[u8]
        ensures { result.now ≡ self.now }
    {
        &self.bytes
    }

    /// An equal list of bytes.
    ///
    /// # Errors
    ///
    /// [`NoMemory`] where the copy finds no memory.
    pub fn copy(&self) -> Result<Bytes, NoMemory>
        ensures { IfOk result (λ b. b ≡ self.now) }
    {
        Bytes::from_slice(*self.bytes.allocator(), &self.bytes)
    }

    /// An equal list of bytes, in the memory of an old one.
    ///
    /// # Errors
    ///
    /// [`NoMemory`] where that is too little and there is no more. The old one is gone.
    pub fn copy_into(&self, old: Bytes) -> Result<Bytes, NoMemory>
        ensures { IfOk result (λ b. b ≡ self.now) }
    {
        let mut bytes = old.into_vec();
        bytes.clear();
        bytes.extend_from_slice(&self.bytes)?;
        Ok(Bytes::from_vec(bytes))
    }
}

impl PartialEq for Bytes {
    ghost eq = { pointwise nat_eq };

    ghost laws = { partial_equiv_from_equiv nat_list_eq_equiv };

    fn eq(&self, other: &Bytes) -> bool {
        self.bytes.as_slice() == other.bytes.as_slice()
    }
}

impl Eq for Bytes {
    ghost laws = { nat_list_eq_equiv };
}
