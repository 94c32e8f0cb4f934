// The whole of a source.
ghost use Rattle.std.specs.Prelude.{◌≡◌, ◌+◌, ◌-◌, ◌≤◌, ◌++◌, List, ℕ, [], vec_len, IfOk, IfErr, OnOk};
ghost use Rattle.std.specs.Io.KnownBytes.{Consumes, IsAtEnd};
ghost use Rattle.rk_program.specs.Input.{GaveAll, TookAtMost, IsSourceRefusal};
ghost use Rattle.rk_program.specs.Ends.{IsNoFile};

use crate::Cause;
use rk_outside::{Failed, Source};
use std::alloc::Global;

/// The most bytes of a command file.
pub const MOST_FILE_BYTES: usize = 67_108_864;

// How many bytes are asked for at once.
const PIECE: usize = 4096;

/// Reads a source to its end, or until it has given more bytes than a file may have. Each turn takes at
/// least one byte, and no more than one byte above the limit is ever taken.
///
/// # Errors
///
/// [`Cause::Length`] where the source gives more bytes than a file may have. [`Cause::SourceFault`] where it
/// fails. [`Cause::Memory`] where there is no memory.
pub fn read_all<S: Source>(alloc: Global, source: &mut S) -> Result<Vec<u8>, Cause>
    ensures gave { IfOk result (λ file. GaveAll (S.left source.old) (S.left source.new) file.items) }
    ensures taken { TookAtMost (S.left source.old) (S.left source.new) (MOST_FILE_BYTES + 1) }
    ensures no_fault { OnOk result (S.fault_count source.new ≡ S.fault_count source.old) }
    ensures cause { IfErr result (IsNoFile (S.left source.old) (S.left source.new) (S.fault_count source.old) (S.fault_count source.new)) }
    ensures later { S.fault_count source.old ≤ S.fault_count source.new }
{
    let mut file = Vec::new(alloc);
    while file.len() <= MOST_FILE_BYTES {
        let before = file.len();
        read_piece(source, &mut file)?;
        if file.len() == before {
            return Ok(file);
        }
    }
    Err(Cause::Length {
        limit: MOST_FILE_BYTES as u64,
    })
}

// Takes one more piece behind the file: nothing at the end of the input.
fn read_piece<S: Source>(source: &mut S, file: &mut Vec<u8>) -> Result<(), Cause>
    requires { vec_len file.old ≤ MOST_FILE_BYTES }
    ensures piece { OnOk result ((piece : List ℕ) × (file.new.items ≡ file.old.items ++ piece) × Consumes (S.left source.old) (S.left source.new) piece × (piece ≡ [] → IsAtEnd (S.left source.new))) }
    ensures len { OnOk result (vec_len file.new ≤ MOST_FILE_BYTES + 1) }
    ensures taken { TookAtMost (S.left source.old) (S.left source.new) (MOST_FILE_BYTES + 1 - vec_len file.old) }
    ensures no_fault { OnOk result (S.fault_count source.new ≡ S.fault_count source.old) }
    ensures cause { IfErr result (IsSourceRefusal (S.fault_count source.old) (S.fault_count source.new)) }
    ensures later { S.fault_count source.old ≤ S.fault_count source.new }
{
    let mut piece = [0u8; PIECE];
    let room = PIECE.min(MOST_FILE_BYTES + 1 - file.len());
    match source.read(&mut piece[..room]) {
        Ok(count) => Ok(file.extend_from_slice(&piece[..count])?),
        Err(Failed) => Err(Cause::SourceFault {
            faults: source.faults(),
        }),
    }
}
