// The bytes of replies.
ghost use Rattle.std.specs.Prelude.{◌≡◌, ◌≢◌, ◌<◌, ◌++◌, [], ◌∷◌, OnOk, IfSome, IsSome, codes};
ghost use Rattle.std.specs.Fmt.{decimal};
ghost use Rattle.std.specs.List.{flat_map};
ghost use Rattle.std.specs.Option.{option_copied, option_map_or};
ghost use Rattle.rk_batch.specs.declared.error.BatchError.TheVariants.{Memory};
ghost use Rattle.rk_machine.specs.Events.{Committed, Number, Released, Opened, Closed, Refused};
ghost use Rattle.rk_script.specs.Words.{line_end};
ghost use Rattle.rk_program.specs.Replies.{pair_text, span_text, point_text, which_text, what_text, refusal_text, refused_text, uncommitted_text, number_text, two_text, shape_text, memtables_text, levels_text, level_text, lent_place, lent_text, Tells};

use rk_batch::BatchError;
use rk_iter::Iter;
use rk_key::Which;
use rk_memstore::{Numbers, Shape};
use rk_model::{Cursor, SuffixValue};
use rk_outside::{NoMemory, StoreError, What};
use rk_script::{push_escaped, push_escaped_bytes};
use std::alloc::Global;

/// The reply to a commit of these numbers.
pub(crate) fn committed(
    alloc: Global,
    out: &mut Vec<u8>,
    name: &[u8],
    numbers: Numbers,
) -> Result<(), NoMemory>
    ensures { OnOk result (Tells out.old.items out.new.items name.now (Committed numbers.first numbers.last)) }
{
    push_committed(alloc, out, name, numbers)
}

fn push_committed(
    alloc: Global,
    out: &mut Vec<u8>,
    name: &[u8],
    numbers: Numbers,
) -> Result<(), NoMemory>
    ensures { OnOk result (out.new.items ≡ out.old.items ++ name.now ++ codes " committed " ++ decimal numbers.first ++ codes " to " ++ decimal numbers.last ++ line_end ∷ []) }
{
    out.extend_from_slice(name)?;
    out.extend_from_slice(b" committed ")?;
    push_number(alloc, out, numbers.first)?;
    out.extend_from_slice(b" to ")?;
    push_number(alloc, out, numbers.last)?;
    Ok(out.push(b'\n')?)
}

/// The reply to a commit that is refused, where that has one.
///
/// # Errors
///
/// `NoMemory` too where it has none.
pub(crate) fn uncommitted(
    alloc: Global,
    out: &mut Vec<u8>,
    name: &[u8],
    error: StoreError,
) -> Result<(), NoMemory>
    ensures { OnOk result (Tells out.old.items out.new.items name.now (Refused error)) }
{
    out.extend_from_slice(name)?;
    out.extend_from_slice(b" refused ")?;
    push_uncommitted(alloc, out, error)?;
    Ok(out.push(b'\n')?)
}

// Why a commit is refused.
fn push_uncommitted(alloc: Global, out: &mut Vec<u8>, error: StoreError) -> Result<(), NoMemory>
    ensures told { OnOk result (IfSome (uncommitted_text error) (λ why. out.new.items ≡ out.old.items ++ why)) }
    ensures some { OnOk result (IsSome (uncommitted_text error)) }
{
    match error {
        StoreError::EmptyBatch => Ok(out.extend_from_slice(b"EmptyBatch")?),
        StoreError::SequenceEnd { last, ops } => {
            push_words_and_two(alloc, out, b"SequenceEnd ", last, ops)
        }
        StoreError::MemFull { active, batch } => {
            push_words_and_two(alloc, out, b"MemFull ", active, batch)
        }
        _ => Err(NoMemory),
    }
}

/// The reply to the taking of a snapshot at this number.
pub(crate) fn snapped(
    alloc: Global,
    out: &mut Vec<u8>,
    name: &[u8],
    number: u64,
) -> Result<(), NoMemory>
    ensures { OnOk result (Tells out.old.items out.new.items name.now (Number number)) }
{
    told_number(alloc, out, name, b" at ", number)
}

/// The reply to the release of a snapshot.
pub(crate) fn released(out: &mut Vec<u8>, name: &[u8]) -> Result<(), NoMemory>
    ensures { OnOk result (Tells out.old.items out.new.items name.now Released) }
{
    told(out, name, b" released")
}

/// The reply to the opening of an iterator at this number.
pub(crate) fn opened(
    alloc: Global,
    out: &mut Vec<u8>,
    name: &[u8],
    number: u64,
) -> Result<(), NoMemory>
    ensures { OnOk result (Tells out.old.items out.new.items name.now (Opened number)) }
{
    told_number(alloc, out, name, b" open at ", number)
}

/// The reply to the closing of an iterator.
pub(crate) fn closed(out: &mut Vec<u8>, name: &[u8]) -> Result<(), NoMemory>
    ensures { OnOk result (Tells out.old.items out.new.items name.now Closed) }
{
    told(out, name, b" closed")
}

/// The reply to an operation that a batch refuses. Want of memory is none.
pub(crate) fn refused(
    alloc: Global,
    out: &mut Vec<u8>,
    name: &[u8],
    error: BatchError,
) -> Result<(), NoMemory>
    ensures { OnOk result ((error ≢ Memory) × (out.new.items ≡ out.old.items ++ refused_text name.now error)) }
{
    out.extend_from_slice(name)?;
    out.extend_from_slice(b" refused ")?;
    push_refusal(alloc, out, error)?;
    Ok(out.push(b'\n')?)
}

/// The reply to a move: where the iterator stands now.
pub(crate) fn stands(out: &mut Vec<u8>, name: &[u8], iter: &Iter) -> Result<(), NoMemory>
    ensures { OnOk result (out.new.items ≡ out.old.items ++ lent_text name.now iter.now) }
{
    out.extend_from_slice(name)?;
    push_place(out, iter)?;
    if iter.range_key_changed() {
        out.extend_from_slice(b" changed")?;
    }
    Ok(out.push(b'\n')?)
}

/// The sizes of the store.
pub(crate) fn shape(alloc: Global, out: &mut Vec<u8>, shape: Shape) -> Result<(), NoMemory>
    ensures { OnOk result (out.new.items ≡ out.old.items ++ shape_text shape) }
{
    push_memtables(alloc, out, shape)?;
    push_levels(alloc, out, shape)?;
    Ok(out.push(b'\n')?)
}

// How many bytes the memtables have.
fn push_memtables(alloc: Global, out: &mut Vec<u8>, shape: Shape) -> Result<(), NoMemory>
    ensures { OnOk result (out.new.items ≡ out.old.items ++ memtables_text shape) }
{
    push_words_and_number(alloc, out, b"shape active ", shape.active)?;
    push_words_and_number(alloc, out, b" frozen ", shape.frozen)
}

// How many tables each level has.
fn push_levels(alloc: Global, out: &mut Vec<u8>, shape: Shape) -> Result<(), NoMemory>
    ensures { OnOk result (out.new.items ≡ out.old.items ++ levels_text shape) }
{
    push_level(alloc, out, shape, 0)?;
    push_level(alloc, out, shape, 1)?;
    push_level(alloc, out, shape, 2)?;
    push_level(alloc, out, shape, 3)
}

fn push_level(alloc: Global, out: &mut Vec<u8>, shape: Shape, level: usize) -> Result<(), NoMemory>
    requires { level < 4 }
    ensures { OnOk result (out.new.items ≡ out.old.items ++ level_text shape.tables level) }
{
    out.extend_from_slice(b" l")?;
    push_number(alloc, out, level as u64)?;
    out.push(b' ')?;
    push_number(alloc, out, shape.tables[level])
}

// A name and these words.
fn told(out: &mut Vec<u8>, name: &[u8], words: &[u8]) -> Result<(), NoMemory>
    ensures { OnOk result (out.new.items ≡ out.old.items ++ name.now ++ words.now ++ line_end ∷ []) }
{
    out.extend_from_slice(name)?;
    out.extend_from_slice(words)?;
    Ok(out.push(b'\n')?)
}

// A name, these words and a number.
fn told_number(
    alloc: Global,
    out: &mut Vec<u8>,
    name: &[u8],
    words: &[u8],
    number: u64,
) -> Result<(), NoMemory>
    ensures { OnOk result (out.new.items ≡ out.old.items ++ name.now ++ words.now ++ decimal number ++ line_end ∷ []) }
{
    out.extend_from_slice(name)?;
    out.extend_from_slice(words)?;
    push_number(alloc, out, number)?;
    Ok(out.push(b'\n')?)
}

// These words, and a number.
fn push_words_and_number(
    alloc: Global,
    out: &mut Vec<u8>,
    words: &[u8],
    number: u64,
) -> Result<(), NoMemory>
    ensures { OnOk result (out.new.items ≡ out.old.items ++ number_text words.now number) }
{
    out.extend_from_slice(words)?;
    push_number(alloc, out, number)
}

// These words, and two numbers.
fn push_words_and_two(
    alloc: Global,
    out: &mut Vec<u8>,
    words: &[u8],
    first: u64,
    second: u64,
) -> Result<(), NoMemory>
    ensures { OnOk result (out.new.items ≡ out.old.items ++ two_text words.now first second) }
{
    out.extend_from_slice(words)?;
    push_two(alloc, out, first, second)
}

// Two numbers.
fn push_two(alloc: Global, out: &mut Vec<u8>, first: u64, second: u64) -> Result<(), NoMemory>
    ensures { OnOk result (out.new.items ≡ out.old.items ++ decimal first ++ codes " " ++ decimal second) }
{
    push_number(alloc, out, first)?;
    out.push(b' ')?;
    push_number(alloc, out, second)
}

// Why a batch refuses an operation.
fn push_refusal(alloc: Global, out: &mut Vec<u8>, error: BatchError) -> Result<(), NoMemory>
    ensures some { OnOk result (error ≢ Memory) }
    ensures told { OnOk result (out.new.items ≡ out.old.items ++ refusal_text error) }
{
    match error {
        BatchError::Memory => Err(NoMemory),
        BatchError::BadBatch { .. } => Ok(()),
        BatchError::BadKey { which, at } => {
            out.extend_from_slice(b"BadKey ")?;
            out.extend_from_slice(which_text(which))?;
            out.push(b' ')?;
            push_number(alloc, out, at as u64)
        }
        BatchError::EmptySpan => Ok(out.extend_from_slice(b"EmptySpan")?),
        BatchError::SuffixInBound { which } => {
            out.extend_from_slice(b"SuffixInBound ")?;
            Ok(out.extend_from_slice(which_text(which))?)
        }
        BatchError::TooLong { what, have, limit } => {
            out.extend_from_slice(b"TooLong ")?;
            out.extend_from_slice(what_text(what))?;
            out.push(b' ')?;
            push_two(alloc, out, have, limit)
        }
    }
}

fn which_text(which: Which) -> &'static [u8]
    ensures { result.now ≡ which_text which }
{
    match which {
        Which::Key => b"key",
        Which::Start => b"start",
        Which::End => b"end",
        Which::Suffix => b"suffix",
    }
}

fn what_text(what: What) -> &'static [u8]
    ensures { result.now ≡ what_text what }
{
    match what {
        What::Value => b"value",
        What::Ops => b"ops",
        What::Bytes => b"bytes",
    }
}

fn push_number(alloc: Global, out: &mut Vec<u8>, number: u64) -> Result<(), NoMemory>
    ensures { OnOk result (out.new.items ≡ out.old.items ++ decimal number) }
{
    let text = format!(in alloc; "{number}")?;
    out.extend_from_slice(text.as_bytes())?;
    Ok(())
}

// Where an iterator stands, and what it reports there.
fn push_place(out: &mut Vec<u8>, iter: &Iter) -> Result<(), NoMemory>
    ensures { OnOk result (out.new.items ≡ out.old.items ++ lent_place iter.now) }
{
    match iter.cursor() {
        Cursor::Fresh => Ok(out.extend_from_slice(b" fresh")?),
        Cursor::Start => Ok(out.extend_from_slice(b" start")?),
        Cursor::End => Ok(out.extend_from_slice(b" end")?),
        Cursor::At(key) => {
            out.extend_from_slice(b" at ")?;
            push_escaped(out, key.bytes())?;
            push_point(out, iter.value())?;
            push_span(out, iter)
        }
    }
}

fn push_point(out: &mut Vec<u8>, value: Option<&[u8]>) -> Result<(), NoMemory>
    ensures { OnOk result (out.new.items ≡ out.old.items ++ option_map_or point_text (option_copied value.entry) []) }
{
    match value {
        None => Ok(()),
        Some(value) => {
            out.extend_from_slice(b" point ")?;
            push_escaped(out, value)
        }
    }
}

fn push_span(out: &mut Vec<u8>, iter: &Iter) -> Result<(), NoMemory>
    ensures { OnOk result (out.new.items ≡ out.old.items ++ option_map_or span_text iter.now.span []) }
{
    match iter.range_bounds() {
        None => Ok(()),
        Some((start, end)) => {
            out.extend_from_slice(b" range ")?;
            push_escaped(out, start)?;
            out.push(b' ')?;
            push_escaped(out, end)?;
            push_pairs(out, iter.range_keys())
        }
    }
}

fn push_pairs(out: &mut Vec<u8>, pairs: &[SuffixValue]) -> Result<(), NoMemory>
    ensures { OnOk result (out.new.items ≡ out.old.items ++ flat_map pair_text pairs.now) }
{
    for pair in pairs {
        push_pair(out, pair)?;
    }
    Ok(())
}

fn push_pair(out: &mut Vec<u8>, pair: &SuffixValue) -> Result<(), NoMemory>
    ensures { OnOk result (out.new.items ≡ out.old.items ++ pair_text pair.now) }
{
    out.push(b' ')?;
    push_escaped_bytes(out, pair.suffix.bytes())?;
    out.push(b'=')?;
    push_escaped(out, pair.value.bytes())
}
