// Words for bytes.
ghost use Rattle.std.specs.Prelude.{◌≡◌, ◌<◌, ◌++◌, ◌==◌, true, false, take, Some, None, IfOk, OnOk, OnErr, IfSome, IfNone, is_some, length, vec_len};
ghost use Rattle.std.specs.List.{list_any};
ghost use Rattle.rk_model.specs.Lists.{none_of};
ghost use Rattle.rk_script.specs.Words.{hex_digit, hex_value, hex_byte, percent, is_plain, escaped_byte, escaped_bytes, escaped, unescaped, unescaped_bytes, byte_before};
ghost use Rattle.rk_script.specs.Grammar.{bytes_of};
ghost use Rattle.rk_script.specs.LineErrors.{ReadsSame};
ghost use Rattle.rk_script.specs.Laws.{ReadsBackWhatIsPrinted};

use crate::Why;
use crate::error::{LineError, Read};
use crate::words::is_word;
use rk_outside::{Bytes, NoMemory};
use std::alloc::{AllocError, Global};
use std::marker::Model;

/// The digit of a number below 16.
fn hex_digit(n: u8) -> u8
    requires { n < 16 }
    ensures { result ≡ hex_digit n }
{
    if n < 10 { b'0' + n } else { b'a' - 10 + n }
}

/// The number of a digit, in lower case.
fn hex_value(digit: u8) -> Option<u8>
    ensures value { result ≡ hex_value digit }
    ensures small { IfSome result (λ n. n < 16) }
{
    match digit {
        b'0'..=b'9' => Some(digit - b'0'),
        b'a'..=b'f' => Some(digit - (b'a' - 10)),
        _ => None,
    }
}

/// The byte of two digits.
fn hex_byte(high: u8, low: u8) -> Option<u8>
    ensures { result ≡ hex_byte high low }
{
    Some(16 * hex_value(high)? + hex_value(low)?)
}

/// Whether a byte is printed as itself.
fn is_plain(byte: u8) -> bool
    ensures { result ≡ is_plain byte }
{
    matches!(byte, b'!'..=b'~') && byte != b'%'
}

/// Printed bytes are one word, and reading it gives the bytes back, whatever they are.
pub fn reads_back_what_is_printed()
    ensures { ReadsBackWhatIsPrinted }
{}

/// A word that stands for bytes, as it stands in the file. Contracts see the bytes.
#[derive(Debug, Drop)]
pub(crate) struct Escaped<'a> {
    word: &'a [u8],
}

impl<'a> Model for Escaped<'a> {
    ghost use Rattle.std.specs.Prelude.{◌≡◌, List, [], ℕ, true, is_some};
    ghost use Rattle.std.specs.Option.{unwrap_or};
    ghost use Rattle.rk_script.specs.Words.{unescaped};

    ghost Value = { List ℕ };

    ghost view = { λ e. unwrap_or (unescaped e.word.now) [] };

    ghost invariant = { λ e. is_some (unescaped e.word.now) ≡ true };
}

impl<'a> Escaped<'a> {
    /// The word, where it stands for bytes.
    pub(crate) fn read(word: &'a [u8]) -> Read<Escaped<'a>>
        ensures { ReadsSame result (bytes_of word.now) }
    {
        if is_escaped(word) {
            Ok(Escaped { word })
        } else {
            Err(LineError::Bad(Why::Escape))
        }
    }

    /// The bytes, where the word is they themselves.
    pub(crate) fn plain(&self) -> Option<&'a [u8]>
        ensures { IfSome result (λ bytes. bytes.now ≡ self.now) }
    {
        if has_percent(self.word) {
            None
        } else {
            Some(self.word)
        }
    }

    /// The bytes that the word stands for.
    pub(crate) fn decode(&self, alloc: Global) -> Result<Bytes, NoMemory>
        ensures { IfOk result (λ bytes. bytes ≡ self.now) }
    {
        match self.plain() {
            Some(bytes) => Bytes::from_slice(alloc, bytes),
            None => unescape(alloc, self.word),
        }
    }
}

/// Whether a word stands for bytes.
fn is_escaped(word: &[u8]) -> bool
    ensures { result ≡ is_some (unescaped word.now) }
{
    is_word(word, b"%-") || are_escapes_whole(word)
}

/// Whether each `%` begins an escape.
fn are_escapes_whole(word: &[u8]) -> bool
    ensures { result ≡ is_some (unescaped_bytes word.now) }
{
    let mut rest = word;
    while let Some((_, after)) = first_byte(rest) {
        rest = after;
    }
    rest.is_empty()
}

/// Whether a word may stand for other bytes than its own.
fn has_percent(word: &[u8]) -> bool
    ensures { result ≡ list_any (λ b. b == percent) word.now }
{
    word.iter().any(|byte| *byte == b'%')
}

/// The bytes that a word stands for.
fn unescape(alloc: Global, word: &[u8]) -> Result<Bytes, NoMemory>
    requires { is_some (unescaped word.now) ≡ true }
    ensures { IfOk result (λ bytes. unescaped word.now ≡ Some bytes) }
{
    if is_word(word, b"%-") {
        return Ok(Bytes::from_vec(Vec::new(alloc)));
    }
    let mut bytes = Vec::with_capacity(alloc, word.len())?;
    let mut rest = word;
    while let Some((byte, after)) = first_byte(rest) {
        bytes.push(byte)?;
        rest = after;
    }
    Ok(Bytes::from_vec(bytes))
}

/// The byte that a word begins with, and what stands behind it.
fn first_byte(word: &[u8]) -> Option<(u8, &[u8])>
    ensures first { IfSome result (λ r. unescaped_bytes word.now ≡ byte_before (Some r.0) (unescaped_bytes r.1.now)) }
    ensures shorter { IfSome result (λ r. length r.1.now < length word.now) }
    ensures none { IfNone result (none_of word.now ≡ false → unescaped_bytes word.now ≡ None) }
{
    match word {
        [b'%', high, low, after @ ..] => Some((hex_byte(*high, *low)?, after)),
        [b'%', ..] | [] => None,
        [byte, after @ ..] => Some((*byte, after)),
    }
}

/// Appends the word for bytes. Where there is no memory, nothing is appended.
///
/// # Errors
///
/// [`NoMemory`] where there is no memory for the word.
pub fn push_escaped(out: &mut Vec<u8>, bytes: &[u8]) -> Result<(), NoMemory>
    ensures ok { OnOk result (out.new.items ≡ out.old.items ++ escaped bytes.now) }
    ensures err { OnErr result (out.new.items ≡ out.old.items) }
{
    if bytes.is_empty() {
        Ok(out.extend_from_slice(b"%-")?)
    } else {
        push_escaped_bytes(out, bytes)
    }
}

/// Appends bytes as they stand in a word, and nothing for no bytes. Where there is no memory, nothing is
/// appended.
///
/// # Errors
///
/// [`NoMemory`] where there is no memory for the bytes.
pub fn push_escaped_bytes(out: &mut Vec<u8>, bytes: &[u8]) -> Result<(), NoMemory>
    ensures ok { OnOk result (out.new.items ≡ out.old.items ++ escaped_bytes bytes.now) }
    ensures err { OnErr result (out.new.items ≡ out.old.items) }
{
    let len = out.len();
    let result = push_each(out, bytes);
    if result.is_err() {
        out.truncate(len);
    }
    result
}

/// Appends bytes as they stand in a word, or some of them where there is no memory.
fn push_each(out: &mut Vec<u8>, bytes: &[u8]) -> Result<(), NoMemory>
    ensures ok { OnOk result (out.new.items ≡ out.old.items ++ escaped_bytes bytes.now) }
    ensures err { take (vec_len out.old) out.new.items ≡ out.old.items }
{
    for byte in bytes {
        push_byte(out, *byte)?;
    }
    Ok(())
}

/// Appends a byte as it stands in a word.
fn push_byte(out: &mut Vec<u8>, byte: u8) -> Result<(), AllocError>
    ensures ok { OnOk result (out.new.items ≡ out.old.items ++ escaped_byte byte) }
    ensures err { OnErr result (out.new.items ≡ out.old.items) }
{
    if is_plain(byte) {
        Ok(out.push(byte)?)
    } else {
        out.extend_from_slice(&[b'%', hex_digit(byte / 16), hex_digit(byte % 16)])
    }
}
