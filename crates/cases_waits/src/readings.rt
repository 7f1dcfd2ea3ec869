// The bench readings P1 to P12 of document 01, each on newly made tables. The objects are read at the end.
use call_lines::memory::Tables;
use call_lines::waiting::{MONOTONIC, NEVER, Terms};
use std::io;

fn reading(rt: &impl Print, number: u32) -> io::Result<Tables> {
    println!(rt; "P{number}")?;
    Ok(Tables::new())
}

fn all_queued(rt: &impl Print) -> io::Result<()> {
    reading(rt, 1)?
        .put_shown(rt)?
        .read_semaphore(rt, 1)?
        .read_event(rt, 2)?;
    reading(rt, 2)?
        .put_shown(rt)?
        .set(rt, 2)?
        .read_semaphore(rt, 1)?
        .read_event(rt, 2)?;
    Ok(())
}

fn posts(rt: &impl Print) -> io::Result<()> {
    reading(rt, 3)?
        .create_semaphore(rt, 1, 3)?
        .post(rt, 1, 2)?
        .read_semaphore(rt, 1)?;
    reading(rt, 4)?
        .create_semaphore(rt, 1, 3)?
        .post(rt, 1, 3)?
        .read_semaphore(rt, 1)?;
    Ok(())
}

// Cancelling shows which of the two waits is still queued.
fn pulsed(rt: &impl Print, t: Tables, manual: u32) -> io::Result<()> {
    t.create_event(rt, 0, manual)?
        .any(rt, &[1], 7)?
        .any(rt, &[1], 8)?
        .pulse(rt, 1)?
        .read_event(rt, 1)?
        .cancel(rt, 1)?
        .cancel(rt, 2)?;
    Ok(())
}

fn pulses(rt: &impl Print) -> io::Result<()> {
    pulsed(rt, reading(rt, 5)?, 0)?;
    pulsed(rt, reading(rt, 6)?, 1)
}

fn mutexes(rt: &impl Print) -> io::Result<()> {
    reading(rt, 7)?
        .create_mutex(rt, 5, 1)?
        .any(rt, &[1], 6)?
        .any(rt, &[1], 6)?
        .unlock(rt, 1, 5)?
        .read_mutex(rt, 1)?;
    reading(rt, 8)?
        .create_mutex(rt, 5, 1)?
        .any(rt, &[1], 6)?
        .kill_owner(rt, 1, 5)?
        .read_mutex(rt, 1)?;
    reading(rt, 9)?
        .create_mutex(rt, 5, u32::MAX)?
        .any(rt, &[1], 5)?
        .unlock(rt, 1, 5)?
        .read_mutex(rt, 1)?;
    Ok(())
}

fn listed_as_alert(rt: &impl Print) -> io::Result<()> {
    reading(rt, 10)?
        .create_event(rt, 1, 0)?
        .wait_any(rt, &[1, 1], Terms::of(7).alerted(1))?
        .read_event(rt, 1)?;
    Ok(())
}

fn timeouts(rt: &impl Print) -> io::Result<()> {
    reading(rt, 11)?
        .create_event(rt, 0, 0)?
        .wait_any(rt, &[1], Terms::of(7).until(MONOTONIC, 100, 100))?
        .wait_any(rt, &[1], Terms::of(7).until(MONOTONIC, 101, 100))?
        .read_event(rt, 1)?;
    reading(rt, 12)?
        .create_event(rt, 0, 0)?
        .wait_any(rt, &[1], Terms::of(7).until(MONOTONIC, NEVER, NEVER))?
        .read_event(rt, 1)?;
    Ok(())
}

pub fn cases(rt: &impl Print) -> io::Result<()> {
    println!(rt; "-- bench readings")?;
    all_queued(rt)?;
    posts(rt)?;
    pulses(rt)?;
    mutexes(rt)?;
    listed_as_alert(rt)?;
    timeouts(rt)
}
