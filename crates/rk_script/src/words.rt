// Lines and words.
ghost use Rattle.std.specs.Prelude.{◌≡◌, ◌==◌, OnOk, map};
ghost use Rattle.std.specs.List.{list_all};
ghost use Rattle.rk_model.specs.Spans.{same_bytes};
ghost use Rattle.rk_script.specs.Grammar.{name_of};
ghost use Rattle.rk_script.specs.LineErrors.{ReadsAs};
ghost use Rattle.rk_script.specs.Words.{words, space, is_skipped, is_printable, is_name, is_name_byte};

use crate::Why;
use crate::error::{LineError, Read};
use crate::limits::MOST_NAME_BYTES;
use std::alloc::AllocError;

/// Puts the words of a line, which stand between spaces, in the place of those in the list.
pub(crate) fn put_words<'a>(list: &mut Vec<&'a [u8]>, line: &'a [u8]) -> Result<(), AllocError>
    ensures { OnOk result (map (λ w. w.now) list.new.items ≡ words line.now) }
{
    list.clear();
    for word in line
        .split(|byte| *byte == b' ')
        .filter(|word| !word.is_empty())
    {
        list.push(word)?;
    }
    Ok(())
}

/// Whether a line is passed over: it is empty, a comment, or of spaces alone.
pub(crate) fn is_skipped(line: &[u8]) -> bool
    ensures { result ≡ is_skipped line.now }
{
    match line {
        [b'#', ..] => true,
        _ => is_blank(line),
    }
}

fn is_blank(line: &[u8]) -> bool
    ensures { result ≡ list_all (λ b. b == space) line.now }
{
    line.iter().all(|byte| *byte == b' ')
}

/// Whether each byte is a space or a visible ASCII character.
pub(crate) fn is_printable(line: &[u8]) -> bool
    ensures { result ≡ list_all is_printable line.now }
{
    line.iter().all(|byte| matches!(*byte, b' '..=b'~'))
}

/// The name that a word is.
pub(crate) fn name_of(word: &[u8]) -> Read<&[u8]>
    ensures { ReadsAs (λ name. name.now) result (name_of word.now) }
{
    if is_name(word) {
        Ok(word)
    } else {
        Err(LineError::Bad(Why::Name))
    }
}

/// Whether a word is a name: lower-case letters, digits and `_`, the first a letter, and no more of them than a name has.
fn is_name(word: &[u8]) -> bool
    ensures { result ≡ is_name word.now }
{
    match word {
        [first, rest @ ..] => first.is_ascii_lowercase()
            && is_of_name_bytes(rest)
            && rest.len() < MOST_NAME_BYTES,
        [] => false,
    }
}

fn is_of_name_bytes(word: &[u8]) -> bool
    ensures { result ≡ list_all is_name_byte word.now }
{
    word.iter()
        .all(|byte| matches!(*byte, b'a'..=b'z' | b'0'..=b'9' | b'_'))
}

/// Whether a word is this text.
pub(crate) fn is_word(word: &[u8], text: &[u8]) -> bool
    ensures { result ≡ same_bytes word.now text.now }
{
    word == text
}
