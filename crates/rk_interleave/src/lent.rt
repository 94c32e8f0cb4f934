// What is lent at the cursor, in buffers that are used again.
ghost use Rattle.std.specs.Prelude.{◌≡◌, IfOk, OnOk, OnErr, None, false, map};
ghost use Rattle.std.specs.Option.{option_copied, option_map};
ghost use Rattle.rk_mask.specs.Pairs.{pair_of};
ghost use Rattle.rk_model.specs.Moves.{key_at};
ghost use Rattle.rk_model.specs.declared.cursor.Cursor.TheVariants.{Fresh};
ghost use Rattle.rk_interleave.specs.Showing.{Nothing, is_kept, shown_at, shown_off};
ghost use Rattle.rk_interleave.specs.Standing.{step_key};
ghost use Rattle.rk_span_laws.specs.Given.{as_widest};

use rk_key::UserKey;
use rk_model::{Cursor, KeptSpan, RangeKey, Span, SuffixValue, copy_key, copy_key_into};
use rk_outside::{Bytes, NoMemory};
use std::alloc::Global;
use std::marker::Model;
use std::mem;

// The cursor, the value and the span there, and whether the last move changed the span. Two buffers are kept for the
// next key and value, so that only longer ones take memory.
#[derive(Debug, Drop)]
pub(crate) struct Lent {
    alloc: Global,
    cursor: Cursor,
    value: Option<Bytes>,
    span: Option<KeptSpan>,
    changed: bool,
    spare_key: Option<UserKey>,
    spare_value: Option<Bytes>,
}

impl Model for Lent {
    ghost use Rattle.rk_interleave.specs.Showing.{Showing};

    ghost Value = { Showing };

    ghost view = { λ l. record { cursor = l.cursor; value = l.value; span = l.span; changed = l.changed } };
}

impl Lent {
    // Of an iterator that has not moved.
    pub(crate) fn new(alloc: Global) -> Lent
        ensures { result ≡ Nothing Fresh false }
    {
        Lent {
            alloc,
            cursor: Cursor::Fresh,
            value: None,
            span: None,
            changed: false,
            spare_key: None,
            spare_value: None,
        }
    }

    // Lends what is shown at a key. Where memory ends, what is lent stays.
    pub(crate) fn show(
        &mut self,
        key: &UserKey,
        value: Option<&Bytes>,
        span: Option<&Span>,
    ) -> Result<(), NoMemory>
        ensures shown { OnOk result (self.new ≡ shown_at self.old key.now (option_copied value.entry) (option_copied span.entry)) }
        ensures stays { OnErr result (self.new ≡ self.old) }
    {
        let kept = is_kept(&self.span, span);
        let next = next_span(self.alloc, kept, span)?;
        let key = self.copied_key(key)?;
        let value = self.copied_value(value)?;
        self.replace(Cursor::At(key), value);
        if !kept {
            self.span = next;
        }
        self.changed = !kept;
        Ok(())
    }

    // Lends nothing, at no key.
    pub(crate) fn leave(&mut self, cursor: Cursor)
        ensures { self.new ≡ shown_off self.old cursor }
    {
        self.changed = self.span.is_some();
        self.span = None;
        self.replace(cursor, None);
    }

    // Puts in a cursor and a value. The buffers of the old ones are kept.
    fn replace(&mut self, cursor: Cursor, value: Option<Bytes>)
        ensures { self.new ≡ record { cursor = cursor; value = value; span = self.old.span; changed = self.old.changed } }
    {
        if let Cursor::At(key) = mem::replace(&mut self.cursor, cursor) {
            self.spare_key = Some(key);
        }
        if let Some(old) = mem::replace(&mut self.value, value) {
            self.spare_value = Some(old);
        }
    }

    // A copy of a key, in the buffer that is kept, if one is.
    fn copied_key(&mut self, key: &UserKey) -> Result<UserKey, NoMemory>
        ensures copied { IfOk result (λ k. k ≡ key.now) }
        ensures stays { self.new ≡ self.old }
    {
        match self.spare_key.take() {
            Some(old) => copy_key_into(key, old),
            None => copy_key(key),
        }
    }

    // A copy of a value, if there is one, likewise.
    fn copied_value(&mut self, value: Option<&Bytes>) -> Result<Option<Bytes>, NoMemory>
        ensures copied { IfOk result (λ v. v ≡ option_copied value.entry) }
        ensures stays { self.new ≡ self.old }
    {
        let Some(value) = value else {
            return Ok(None);
        };
        let copied = match self.spare_value.take() {
            Some(old) => value.copy_into(old)?,
            None => value.copy()?,
        };
        Ok(Some(copied))
    }

    // Where it stands.
    pub(crate) fn cursor(&self) -> &Cursor
        ensures { result.now ≡ self.now.cursor }
    {
        &self.cursor
    }

    // The key of the cursor, where it is at one.
    pub(crate) fn key(&self) -> Option<&UserKey>
        ensures { option_copied result ≡ key_at self.now.cursor }
    {
        match &self.cursor {
            Cursor::At(key) => Some(key),
            _ => None,
        }
    }

    // The key of the cursor, for a step.
    pub(crate) fn step_key(&self, steps: bool) -> Option<&UserKey>
        ensures { option_copied result ≡ step_key steps self.now.cursor }
    {
        if steps { self.key() } else { None }
    }

    // The value of the point there.
    pub(crate) fn value(&self) -> Option<&Bytes>
        ensures { option_copied result ≡ self.now.value }
    {
        self.value.as_ref()
    }

    // The span there.
    pub(crate) fn span(&self) -> Option<&KeptSpan>
        ensures { option_copied result ≡ self.now.span }
    {
        self.span.as_ref()
    }

    // Whether the last move changed the span.
    pub(crate) fn changed(&self) -> bool
        ensures { result ≡ self.now.changed }
    {
        self.changed
    }
}

// The span that is lent stays: there is none, as before, or it begins where it did.
fn is_kept(old: &Option<KeptSpan>, span: Option<&Span>) -> bool
    ensures { result ≡ is_kept old.now (option_copied span.entry) }
{
    match (old, span) {
        (None, None) => true,
        (Some(old), Some(span)) => *old.start() == span.start,
        _ => false,
    }
}

// The next span to be lent, unless the old one is kept.
fn next_span(alloc: Global, kept: bool, span: Option<&Span>) -> Result<Option<KeptSpan>, NoMemory>
    ensures { kept ≡ false → IfOk result (λ s. s ≡ option_map as_widest (option_copied span.entry)) }
{
    match span {
        Some(span) if !kept => Ok(Some(kept_span(alloc, span)?)),
        _ => Ok(None),
    }
}

// A span as it is lent.
fn kept_span(alloc: Global, span: &Span) -> Result<KeptSpan, NoMemory>
    ensures { IfOk result (λ s. s ≡ as_widest span.now) }
{
    let pairs = pairs_of(alloc, span.keys.as_slice())?;
    Ok(KeptSpan::new(copy_key(&span.start)?, copy_key(&span.end)?, pairs))
}

// The suffixes and values of range keys.
fn pairs_of(alloc: Global, keys: &[RangeKey]) -> Result<Vec<SuffixValue>, NoMemory>
    ensures { IfOk result (λ pairs. pairs.items ≡ map pair_of keys.now) }
{
    let mut pairs = Vec::new(alloc);
    for key in keys {
        pairs.push(SuffixValue {
            suffix: key.suffix.copy(),
            value: key.value.copy()?,
        })?;
    }
    Ok(pairs)
}
