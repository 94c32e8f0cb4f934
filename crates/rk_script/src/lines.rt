// The lines of a file, one after the other.
ghost use Rattle.std.specs.Prelude.{◌≡◌, ◌<◌, length, position, IfOk, IfSome};
ghost use Rattle.std.specs.Option.{option_copied};
ghost use Rattle.rk_script.specs.Asked.{event_asked, IsNextAsked};
ghost use Rattle.rk_script.specs.LineErrors.{ReadsAs};
ghost use Rattle.rk_script.specs.Lines.{first_line, behind_line, past_line, remaining, IsNextLine, IsNextKept};
ghost use Rattle.rk_script.specs.Script.{accepted_event, script};
ghost use Rattle.rk_script.specs.Words.{ends_line};

use crate::asked::Asked;
use crate::error::{LineError, Read};
use crate::grammar::asked_of;
use crate::names::LiveNames;
use crate::words::{is_printable, is_skipped, put_words};
use crate::{Line, ScriptError, Why};
use std::alloc::Global;
use std::marker::Model;

/// A cursor over the lines of a command file that are not skipped. It keeps the names that are live, and no line.
/// Contracts see the bytes that are left, with the number of the line before them and the live names.
#[derive(Debug, Drop)]
pub struct Lines<'a> {
    left: &'a [u8],
    number: u64,
    names: LiveNames,
    /// The words of the last line that was read. Those of the next one are put in their memory.
    words: Vec<&'a [u8]>,
}

impl<'a> Model for Lines<'a> {
    ghost use Rattle.std.specs.Prelude.{◌+◌, ◌<◌, ◌^◌, length};
    ghost use Rattle.rk_script.specs.Lines.{LinesLeft};

    ghost Value = { LinesLeft };

    ghost view = { λ l. record { number = l.number; names = l.names; left = l.left.now } };

    ghost invariant = { λ l. l.number + length l.left.now < 2 ^ 64 };
}

impl<'a> Lines<'a> {
    /// Stands before the first line of a file. It takes no memory.
    pub fn new(alloc: Global, bytes: &'a [u8]) -> Lines<'a>
        ensures { remaining result ≡ script bytes.now }
    {
        Lines {
            left: bytes,
            number: 0,
            names: LiveNames::new(alloc),
            words: Vec::new(alloc),
        }
    }

    /// The next line, or `None` at the end of the file. It reads this line and the skipped ones before it, and no
    /// other. What a cursor answers after an error is not said.
    ///
    /// # Errors
    ///
    /// [`ScriptError::BadLine`] where the next line is not of the grammar, with the first cause in the order of
    /// [`Why`]. [`ScriptError::Memory`] where there is no memory.
    pub fn next(&mut self, alloc: Global) -> Result<Option<Line>, ScriptError>
        ensures line { IsNextLine (remaining self.old) (remaining self.new) result }
        ensures shorter { IfOk result (λ next. IfSome next (λ _. length self.new.left < length self.old.left)) }
    {
        match self.next_asked(alloc)? {
            Some(asked) => Ok(Some(Line {
                number: self.number,
                event: asked.decode(alloc)?,
            })),
            None => Ok(None),
        }
    }

    /// The next line as [`Lines::next`] reads it, but not decoded. Its number is then that of the cursor.
    pub(crate) fn next_asked(&mut self, alloc: Global) -> Result<Option<Asked<'a>>, ScriptError>
        ensures line { IsNextAsked self.old self.new result }
        ensures shorter { IfOk result (λ next. IfSome next (λ _. length self.new.left < length self.old.left)) }
    {
        let Some(line) = self.next_kept() else {
            return Ok(None);
        };
        let asked = match accepted(alloc, &self.names, &mut self.words, line) {
            Ok(asked) => asked,
            Err(LineError::Memory) => return Err(ScriptError::Memory),
            Err(LineError::Bad(why)) => return Err(ScriptError::BadLine {
                line: self.number,
                why,
            }),
        };
        self.names.add(alloc, &asked)?;
        Ok(Some(asked))
    }

    /// The bytes of the next line that is not skipped.
    fn next_kept(&mut self) -> Option<&'a [u8]>
        ensures line { IsNextKept self.old self.new (option_copied result) }
        ensures shorter { IfSome result (λ _. length self.new.left < length self.old.left) }
    {
        while !self.left.is_empty() {
            let line = self.cut();
            if !is_skipped(line) {
                return Some(line);
            }
        }
        None
    }

    /// Takes the first line off the bytes that are left, and counts it.
    fn cut(&mut self) -> &'a [u8]
        requires { 0 < length self.old.left }
        ensures line { result.now ≡ first_line self.old.left }
        ensures left { self.new ≡ past_line self.old }
    {
        let (line, left) = cut_line(self.left);
        self.left = left;
        self.number += 1;
        line
    }
}

/// The first line of these bytes, and what stands behind its end.
fn cut_line(bytes: &[u8]) -> (&[u8], &[u8])
    ensures line { result.0.now ≡ first_line bytes.now }
    ensures left { result.1.now ≡ behind_line bytes.now }
{
    match first_end(bytes) {
        Some(end) => (&bytes[..end], &bytes[end + 1..]),
        None => (bytes, &[]),
    }
}

/// The place of the first line end.
fn first_end(bytes: &[u8]) -> Option<usize>
    ensures { result ≡ position ends_line bytes.now }
{
    bytes.iter().position(|byte| *byte == b'\n')
}

/// What a line asks for, where the live names let it stand. Its words are put in the place of those in the list.
fn accepted<'a>(
    alloc: Global,
    names: &LiveNames,
    words: &mut Vec<&'a [u8]>,
    line: &'a [u8],
) -> Read<Asked<'a>>
    ensures { ReadsAs event_asked result (accepted_event names.now line.now) }
{
    if !is_printable(line) {
        return Err(LineError::Bad(Why::Byte));
    }
    put_words(words, line)?;
    Ok(names.check(asked_of(alloc, words)?)?)
}
