// A whole file.
ghost use Rattle.std.specs.Prelude.{◌≡◌, List, IfOk, IfErr, OnOk, Ok};
ghost use Rattle.rk_script.specs.Script.{script, IsScriptRefusal};
ghost use Rattle.rk_script.specs.declared.line.Line.{Line};

use crate::{Line, Lines, ScriptError};
use std::alloc::Global;

/// The lines of a command file that are not skipped, with their numbers.
///
/// # Errors
///
/// [`ScriptError::BadLine`] with the first line that is not of the grammar, and the first cause in the order of
/// [`Why`](crate::Why). [`ScriptError::Memory`] where there is no memory.
pub fn read_script(alloc: Global, bytes: &[u8]) -> Result<Vec<Line>, ScriptError>
    ensures lines { IfOk result (λ read. script bytes.now ≡ Ok read.items) }
    ensures bad { IfErr result (λ error. IsScriptRefusal (script bytes.now) error) }
{
    let mut left = Lines::new(alloc, bytes);
    let mut lines = Vec::new(alloc);
    while let Some(line) = left.next(alloc)? {
        lines.push(line)?;
    }
    Ok(lines)
}

/// Whether a command file is of the grammar. It keeps no line, and decodes none.
///
/// # Errors
///
/// As [`read_script`].
pub fn check_script(alloc: Global, bytes: &[u8]) -> Result<(), ScriptError>
    ensures good { OnOk result ((lines : List Line) × (script bytes.now ≡ Ok lines)) }
    ensures bad { IfErr result (λ error. IsScriptRefusal (script bytes.now) error) }
{
    let mut left = Lines::new(alloc, bytes);
    while let Some(asked) = left.next_asked(alloc)? {
        drop(asked);
    }
    Ok(())
}
