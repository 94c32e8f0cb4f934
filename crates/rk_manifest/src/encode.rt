// Descriptions of versions written as bytes.
ghost use Rattle.std.specs.Prelude.{◌≡◌, ◌<◌, ◌++◌, length, IfOk, OnOk, flat_map};
ghost use Rattle.byteorder.specs.Endian.{big_bytes};
ghost use Rattle.rk_pieces.specs.Pieces.{short};
ghost use Rattle.rk_manifest.specs.Versions.{version, version_bytes, level_bytes, table_bytes};

use crate::{TableDesc, VersionDesc};
use byteorder::{BigEndian, ByteOrder};
use rk_key::UserKey;
use rk_outside::NoMemory;
use std::alloc::Global;

impl VersionDesc {
    /// The bytes of a description.
    ///
    /// # Errors
    ///
    /// [`NoMemory`] where the bytes find no memory.
    pub fn encode(&self, alloc: Global) -> Result<Vec<u8>, NoMemory>
        ensures { IfOk result (λ bytes. bytes.items ≡ version_bytes (version self.now)) }
    {
        let mut out = Vec::new(alloc);
        push_number(&mut out, self.next_file)?;
        push_number(&mut out, self.flushed_upto)?;
        for level in &self.levels {
            push_level(&mut out, level)?;
        }
        Ok(out)
    }
}

/// Writes the count of a level's tables and the tables at the end.
fn push_level(out: &mut Vec<u8>, level: &Vec<TableDesc>) -> Result<(), NoMemory>
    ensures { OnOk result (out.new.items ≡ out.old.items ++ level_bytes level.now.items) }
{
    push_count(out, level.len() as u64)?;
    for table in level {
        push_table(out, table)?;
    }
    Ok(())
}

/// Writes a table at the end.
#[tactic(auto, using(std::proofs::Common::append_assoc))]
fn push_table(out: &mut Vec<u8>, table: &TableDesc) -> Result<(), NoMemory>
    ensures { OnOk result (out.new.items ≡ out.old.items ++ table_bytes table.now) }
{
    push_number(out, table.file)?;
    push_number(out, table.size)?;
    push_key(out, &table.lo)?;
    push_key(out, &table.hi)?;
    out.push(u8::from(table.closed))?;
    Ok(())
}

/// Writes a key behind its length at the end.
#[tactic(auto, using(crate::proofs::Lengths::length_key))]
fn push_key(out: &mut Vec<u8>, key: &UserKey) -> Result<(), NoMemory>
    ensures { OnOk result (out.new.items ≡ out.old.items ++ short key.now) }
{
    let bytes = key.bytes();
    out.push(bytes.len() as u8)?;
    out.extend_from_slice(bytes)?;
    Ok(())
}

/// Writes a number of eight bytes at the end, the highest byte first.
fn push_number(out: &mut Vec<u8>, number: u64) -> Result<(), NoMemory>
    ensures { OnOk result (out.new.items ≡ out.old.items ++ big_bytes 8 number) }
{
    let mut bytes = [0; 8];
    BigEndian::write_u64(&mut bytes, number);
    out.extend_from_slice(&bytes)?;
    Ok(())
}

/// Writes the lowest four bytes of a count at the end, the highest byte first.
fn push_count(out: &mut Vec<u8>, count: u64) -> Result<(), NoMemory>
    ensures { OnOk result (out.new.items ≡ out.old.items ++ big_bytes 4 count) }
{
    let mut bytes = [0; 8];
    BigEndian::write_u64(&mut bytes, count);
    out.extend_from_slice(&bytes[4..])?;
    Ok(())
}
