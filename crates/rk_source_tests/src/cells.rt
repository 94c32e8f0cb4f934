// Cells whose input is a number, with values that are not below it.
ghost use Rattle.std.specs.Prelude.{◌≡◌, ◌≤◌, IfOk};
ghost use Rattle.std.specs.Arc.{arc_value};

use rk_cell::{Cell, MadeOf};
use rk_outside::NoMemory;
use std::alloc::Global;
use std::sync::Arc;
use std::test::Fail;
use std::thread::join;

#[derive(Debug, Drop)]
struct AtLeast(u32);

impl MadeOf<u32> for AtLeast {
    ghost made_of = { λ least value. least ≤ value.0 };
}

fn cell_of(alloc: Global, least: u32) -> Result<Cell<u32, AtLeast>, NoMemory>
    ensures { IfOk result (λ cell. cell ≡ least) }
{
    Cell::new(alloc, Arc::new(alloc, least)?)
}

/// The value of the cell. Where there is none yet, it is the input, which is offered.
fn value_of(alloc: Global, cell: &Cell<u32, AtLeast>) -> Result<u32, NoMemory>
    ensures { IfOk result (λ value. cell.now ≤ value) }
{
    if let Some(value) = cell.look() {
        return Ok(value.0);
    }
    let value = *cell.input();
    cell.offer(Arc::new(alloc, AtLeast(value))?);
    Ok(value)
}

/// Whether a value may be sent to other threads and shared with them.
fn is_shared<T: Send + Sync>(_: &T) -> bool {
    true
}

/// A cell may be, where its input and its value may.
fn cell_is_shared<I: Send + Sync, T: MadeOf<I> + Send + Sync>(cell: &Cell<I, T>) -> bool {
    is_shared(cell)
}

#[test]
fn the_first_offer_is_shown(rt: HostRuntime) -> Result<(), Fail> {
    let alloc = rt.alloc();
    let cell = cell_of(alloc, 4)?;
    assert!(rt; cell.look().is_none());
    cell.offer(Arc::new(alloc, AtLeast(7))?);
    cell.offer(Arc::new(alloc, AtLeast(8))?);
    assert_eq!(rt; cell.look().map(|value| value.0), Some(7));
    assert_eq!(rt; value_of(alloc, &cell)?, 7);
    assert!(rt; cell_is_shared(&cell));
    Ok(())
}

#[test]
fn two_threads_fill_one_cell(rt: HostRuntime) -> Result<(), Fail> {
    let alloc = rt.alloc();
    let cell = cell_of(alloc, 21)?;
    let (one, other) = join(&rt, || value_of(alloc, &cell), || value_of(alloc, &cell));
    assert_eq!(rt; (one?, other?), (21, 21));
    assert_eq!(rt; cell.look().map(|value| value.0), Some(21));
    Ok(())
}
