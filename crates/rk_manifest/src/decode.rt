// Descriptions of versions read from bytes.
ghost use Rattle.std.specs.Prelude.{◌≡◌, ◌==◌, [], ◌∷◌, IfOk, map, option_map};
ghost use Rattle.std.specs.List.{list_all};
ghost use Rattle.rk_manifest.specs.Versions.{version, version_of, without_tables};

use crate::{TableDesc, VersionDesc};
use byteorder::{BigEndian, ByteOrder};
use rk_outside::NoMemory;
use std::alloc::Global;

/// How many levels a version has.
const LEVELS: usize = 4;

/// The least number of a file that is a table's.
const FIRST_TABLE: u64 = 16;

/// What file numbers and sequence numbers stay below.
const END: u64 = 1 << 56;

/// The length of the two numbers that a version begins with.
const NUMBERS_LEN: usize = 16;

/// The length of the bytes of a version without tables: the numbers, and a count of four bytes for each level.
const BARE_LEN: usize = NUMBERS_LEN + 4 * LEVELS;

impl VersionDesc {
    /// The description that these bytes spell, and `None` where they spell none, or one with a table.
    ///
    /// # Errors
    ///
    /// [`NoMemory`] where the description finds no memory.
    pub fn decode(alloc: Global, bytes: &[u8]) -> Result<Option<VersionDesc>, NoMemory>
        ensures { IfOk result (λ desc. option_map version desc ≡ version_of bytes.now) }
    {
        let Some((next_file, flushed_upto)) = numbers(bytes) else {
            return Ok(None);
        };
        Ok(Some(VersionDesc {
            next_file,
            flushed_upto,
            levels: no_tables(alloc)?,
        }))
    }
}

/// Four levels without a table.
pub(crate) fn no_tables(alloc: Global) -> Result<Vec<Vec<TableDesc>>, NoMemory>
    ensures { IfOk result (λ levels. map (λ level. level.items) levels.items ≡ [] ∷ [] ∷ [] ∷ [] ∷ []) }
{
    let mut levels = Vec::new(alloc);
    levels.push(Vec::new(alloc))?;
    levels.push(Vec::new(alloc))?;
    levels.push(Vec::new(alloc))?;
    levels.push(Vec::new(alloc))?;
    Ok(levels)
}

/// The next file number and the last number in tables of a version without tables.
fn numbers(bytes: &[u8]) -> Option<(u64, u64)>
    ensures { option_map (λ x. without_tables x.0 x.1) result ≡ version_of bytes.now }
{
    if bytes.len() != BARE_LEN || !are_zeros(&bytes[NUMBERS_LEN..]) {
        return None;
    }
    let next_file = BigEndian::read_u64(bytes);
    let flushed_upto = BigEndian::read_u64(&bytes[8..]);
    if next_file < FIRST_TABLE || next_file >= END || flushed_upto >= END {
        return None;
    }
    Some((next_file, flushed_upto))
}

fn are_zeros(bytes: &[u8]) -> bool
    ensures { result ≡ list_all (λ b. b == 0) bytes.now }
{
    bytes.iter().all(|b| *b == 0)
}
