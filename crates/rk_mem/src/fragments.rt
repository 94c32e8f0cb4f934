// The range entries of a chunk, and the spans that they are cut into.
ghost use Rattle.std.specs.Prelude.{◌≡◌, IfOk};
ghost use Rattle.std.specs.Arc.{arc_value};
ghost use Rattle.rk_fragment.specs.Fragments.{fragments};

use rk_cell::{Cell, MadeOf};
use rk_fragment::fragment;
use rk_model::{Entry, Span};
use rk_outside::NoMemory;
use std::alloc::Global;
use std::marker::Model;
use std::sync::Arc;

/// Range entries. Contracts see the list of them.
#[derive(Drop)]
pub(crate) struct Ranges {
    pub entries: Vec<Entry>,
}

impl Model for Ranges {
    ghost use Rattle.std.specs.Prelude.{List};
    ghost use Rattle.rk_model.specs.declared.op.Entry.{Entry};

    ghost Value = { List Entry };

    ghost view = { λ r. r.entries.items };
}

/// The spans that range entries are cut into. Contracts see the list of them.
#[derive(Debug, Drop)]
pub(crate) struct Fragments {
    pub spans: Vec<Span>,
}

impl Model for Fragments {
    ghost use Rattle.std.specs.Prelude.{List};
    ghost use Rattle.rk_model.specs.declared.span.Span.{Span};

    ghost Value = { List Span };

    ghost view = { λ f. f.spans.items };
}

impl MadeOf<Ranges> for Fragments {
    ghost made_of = { λ entries spans. spans ≡ fragments entries };
}

/// The fragments that a cell shows. Where it shows none, they are made of its range entries, and offered to it.
pub(crate) fn fragments_of(
    alloc: Global,
    ranges: &Cell<Ranges, Fragments>,
) -> Result<Arc<Fragments>, NoMemory>
    ensures { IfOk result (λ spans. arc_value spans ≡ fragments ranges.now) }
{
    if let Some(fragments) = ranges.look() {
        return Ok(fragments);
    }
    let spans = fragment(alloc, &ranges.input().entries)?;
    let fragments = Arc::new(alloc, Fragments { spans })?;
    ranges.offer(Arc::try_clone(&fragments)?);
    Ok(fragments)
}
