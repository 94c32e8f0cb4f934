// Turns of a lock around a sum.
ghost use Rattle.std.specs.Prelude.{◌≡◌, ℕ, ◌+◌, ◌%◌, ◌^◌, List, [], ◌∷◌, ◌++◌, length, sum_by};
ghost use Rattle.rk_lock.specs.Passes.{view, IsOf, IsOutside, ComesBack};

use rk_lock::{Kept, Pass, Turn};
use std::sync::Wait;
use std::test::Fail;
use std::thread::{Threads, join};

/// An amount was added.
pub struct Added {
    pub ticket: u64,
    pub amount: u64,
}

/// A sum and the count of its amounts. It stands for the amounts that were added to the number where it began.
#[derive(Drop)]
pub struct Tally {
    pub sum: u64,
    pub count: u64,
    pub last: u64,
}

impl Kept for Tally {
    type Event = Added;

    type Origin = u64;

    ghost ticket = { λ e. e.ticket };

    ghost stands = { λ t start events. (t.sum ≡ (start + sum_by (λ e. e.amount) events) % 2 ^ 64) × (t.count ≡ length events % 2 ^ 64) };
}

// A tally that begins at a number.
fn starting_at(start: u64) -> Tally
    ensures { (result.sum ≡ start) × (result.count ≡ 0) }
{
    Tally {
        sum: start,
        count: 0,
        last: 0,
    }
}

const TURNS: u32 = 10_000;

fn add(rt: &impl Wait, turn: &Turn<Tally>, pass: &mut Pass<Tally>, amount: u64)
    requires { IsOf turn.now pass.old × IsOutside pass.old }
    ensures back { ComesBack turn.now pass.old pass.new }
    ensures seen { (before : List Added) × (e : Added) × ((view pass.new).seen ≡ before ++ e ∷ []) × (e.amount ≡ amount) }
{
    let tally = turn.enter(rt, pass);
    let tally = Tally {
        sum: tally.sum.wrapping_add(amount),
        count: tally.count.wrapping_add(1),
        last: amount,
    };
    turn.leave(pass, tally);
}

fn add_often(rt: &impl Wait, turn: &Turn<Tally>, mut pass: Pass<Tally>, amount: u64) -> Pass<Tally>
    requires { IsOf turn.now pass × IsOutside pass }
    ensures { ComesBack turn.now pass result }
{
    for _ in 0..TURNS {
        add(rt, turn, &mut pass, amount);
    }
    pass
}

// Two threads add, each with a pass of its own.
fn two<R: Threads + Wait + Sync>(
    rt: &R,
    turn: &Turn<Tally>,
    mut pass: Pass<Tally>,
    amount: u64,
) -> Pass<Tally>
    requires { IsOf turn.now pass × IsOutside pass }
    ensures { ComesBack turn.now pass result }
{
    let other = turn.split(&mut pass);
    let (mut pass, other) = join(
        rt,
        move || -> Pass<Tally>
            requires { IsOf turn.now pass × IsOutside pass }
            ensures { ComesBack turn.entry.now pass result }
        { add_often(rt, turn, pass, amount) },
        move || -> Pass<Tally>
            requires { IsOf turn.now other × IsOutside other }
            ensures { ComesBack turn.entry.now other result }
        { add_often(rt, turn, other, amount.wrapping_add(1)) },
    );
    turn.join(&mut pass, other);
    pass
}

// Four threads.
fn four<R: Threads + Wait + Sync>(
    rt: &R,
    turn: &Turn<Tally>,
    mut pass: Pass<Tally>,
    amount: u64,
) -> Pass<Tally>
    requires { IsOf turn.now pass × IsOutside pass }
    ensures { ComesBack turn.now pass result }
{
    let other = turn.split(&mut pass);
    let (mut pass, other) = join(
        rt,
        move || -> Pass<Tally>
            requires { IsOf turn.now pass × IsOutside pass }
            ensures { ComesBack turn.entry.now pass result }
        { two(rt, turn, pass, amount) },
        move || -> Pass<Tally>
            requires { IsOf turn.now other × IsOutside other }
            ensures { ComesBack turn.entry.now other result }
        { two(rt, turn, other, amount.wrapping_add(2)) },
    );
    turn.join(&mut pass, other);
    pass
}

// Eight threads, with a tree of passes.
fn eight<R: Threads + Wait + Sync>(
    rt: &R,
    turn: &Turn<Tally>,
    mut pass: Pass<Tally>,
    amount: u64,
) -> Pass<Tally>
    requires { IsOf turn.now pass × IsOutside pass }
    ensures { ComesBack turn.now pass result }
{
    let other = turn.split(&mut pass);
    let (mut pass, other) = join(
        rt,
        move || -> Pass<Tally>
            requires { IsOf turn.now pass × IsOutside pass }
            ensures { ComesBack turn.entry.now pass result }
        { four(rt, turn, pass, amount) },
        move || -> Pass<Tally>
            requires { IsOf turn.now other × IsOutside other }
            ensures { ComesBack turn.entry.now other result }
        { four(rt, turn, other, amount.wrapping_add(4)) },
    );
    turn.join(&mut pass, other);
    pass
}

#[test]
fn eight_threads_add_up(rt: HostRuntime) -> Result<(), Fail> {
    let Ok((turn, pass)) = Turn::new(rt.alloc(), starting_at(0)) else {
        panic!(rt; "no memory")
    };
    let pass = eight(&rt, &turn, pass, 1);
    let tally = turn.close(pass);
    assert!(rt; tally.sum == 360_000 && tally.count == 80_000);
    Ok(())
}

#[test]
fn a_lock_that_nobody_enters_gives_its_value_back(rt: HostRuntime) -> Result<(), Fail> {
    let Ok((turn, pass)) = Turn::new(rt.alloc(), starting_at(7)) else {
        panic!(rt; "no memory")
    };
    let tally = turn.close(pass);
    assert!(rt; tally.sum == 7 && tally.count == 0);
    Ok(())
}

#[test]
fn a_pass_sees_its_event(rt: HostRuntime) -> Result<(), Fail> {
    let Ok((turn, mut pass)) = Turn::new(rt.alloc(), starting_at(5)) else {
        panic!(rt; "no memory")
    };
    let mut other = turn.split(&mut pass);
    add(&rt, &turn, &mut other, 1);
    turn.join(&mut pass, other);
    add(&rt, &turn, &mut pass, 1);
    let tally = turn.close(pass);
    assert!(rt; tally.sum == 7 && tally.count == 2);
    Ok(())
}
