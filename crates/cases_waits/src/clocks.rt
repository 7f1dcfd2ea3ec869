// The two clocks: which waits expire, and in what order they are told.
use call_lines::memory::{Cell, Tables, WaitCell};
use call_lines::waiting::{MONOTONIC, NEVER, REAL_TIME, Terms};
use std::io;

// The last time that is not "never".
const LAST_TIME: u64 = NEVER - 1;

// An event that is not signaled, for which all waits of this file wait.
fn unsignaled(rt: &impl Print) -> io::Result<Tables> {
    Tables::new().create_event(rt, 0, 0)
}

fn queue_on_both(rt: &impl Print, t: Tables) -> io::Result<Tables> {
    t.wait_any(rt, &[1], Terms::of(7).until(MONOTONIC, 100, 0))?
        .wait_any(rt, &[1], Terms::of(8).until(REAL_TIME, 100, 0))?
        .wait_any(rt, &[1], Terms::of(9).until(MONOTONIC, 101, 0))?
        .wait_any(rt, &[1], Terms::of(10).until(MONOTONIC, NEVER, 0))?
        .wait_any(rt, &[1], Terms::of(11).until(REAL_TIME, NEVER, 0))?
        .wait_any(rt, &[1], Terms::of(12).until(REAL_TIME, LAST_TIME, 0))
}

// Each clock ends its own waits; tickets 4 and 5 have no end and are there afterwards.
fn both(rt: &impl Print) -> io::Result<()> {
    queue_on_both(rt, unsignaled(rt)?)?
        .expire(rt, MONOTONIC, 99)?
        .expire(rt, MONOTONIC, 100)?
        .expire(rt, MONOTONIC, NEVER)?
        .expire(rt, REAL_TIME, 99)?
        .expire(rt, REAL_TIME, 101)?
        .expire(rt, REAL_TIME, LAST_TIME - 1)?
        .expire(rt, REAL_TIME, LAST_TIME)?
        .expire(rt, REAL_TIME, NEVER)?
        .read_event(rt, 1)?
        .set(rt, 1)?
        .cancel(rt, 5)?;
    Ok(())
}

// The time is looked at after the attempt, and by the wait's own clock.
fn at_once(rt: &impl Print) -> io::Result<()> {
    Tables::new()
        .create_event(rt, 1, 0)?
        .wait_any(rt, &[1], Terms::of(7).until(MONOTONIC, 0, 5))?
        .wait_any(rt, &[1], Terms::of(7).until(MONOTONIC, 0, 0))?
        .wait_any(rt, &[1], Terms::of(7).until(REAL_TIME, 4, 5))?
        .wait_any(rt, &[1], Terms::of(7).until(REAL_TIME, 5, 5))?
        .wait_any(rt, &[1], Terms::of(7).until(REAL_TIME, 6, 5))?;
    Ok(())
}

// No time is kept: a wait that ends at 600 is queued at 500 though 900 was told before.
fn going_back(rt: &impl Print) -> io::Result<()> {
    unsignaled(rt)?
        .wait_any(rt, &[1], Terms::of(7).until(MONOTONIC, 1000, 0))?
        .expire(rt, MONOTONIC, 900)?
        .expire(rt, MONOTONIC, 500)?
        .wait_any(rt, &[1], Terms::of(8).until(MONOTONIC, 600, 700))?
        .wait_any(rt, &[1], Terms::of(8).until(MONOTONIC, 600, 500))?
        .expire(rt, MONOTONIC, 599)?
        .expire(rt, MONOTONIC, 600)?
        .expire(rt, MONOTONIC, 1000)?;
    Ok(())
}

// Ticket 4 stands in the first place and has the earliest time; it is told last.
fn by_ticket(rt: &impl Print) -> io::Result<()> {
    let t = unsignaled(rt)?
        .wait_any(rt, &[1], Terms::of(7).until(MONOTONIC, 30, 0))?
        .wait_any(rt, &[1], Terms::of(8).until(MONOTONIC, 20, 0))?
        .wait_any(rt, &[1], Terms::of(9).until(MONOTONIC, 10, 0))?
        .cancel(rt, 1)?
        .wait_any(rt, &[1], Terms::of(10).until(MONOTONIC, 5, 0))?;
    let ticket = t.cell(Cell::Wait(0, WaitCell::Ticket));
    println!(rt; "ticket in the first wait place: {ticket}")?;
    t.expire(rt, MONOTONIC, 20)?;
    Ok(())
}

fn other_clocks(rt: &impl Print) -> io::Result<()> {
    unsignaled(rt)?
        .wait_any(rt, &[1], Terms::of(7).until(MONOTONIC, 30, 0))?
        .wait_any(rt, &[1], Terms::of(7).until(REAL_TIME, 30, 0))?
        .expire(rt, 2, 100)?
        .expire(rt, u32::MAX, 100)?
        .expire(rt, MONOTONIC, 100)?
        .expire(rt, REAL_TIME, 100)?;
    Ok(())
}

pub fn cases(rt: &impl Print) -> io::Result<()> {
    println!(rt; "-- clocks")?;
    both(rt)?;
    at_once(rt)?;
    going_back(rt)?;
    by_ticket(rt)?;
    other_clocks(rt)
}
