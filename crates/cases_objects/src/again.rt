// Freed places are used again, the lowest first; an event is reset; there is no wait to cancel.
use call_lines::memory::Tables;
use std::io;

fn closed(rt: &impl Print) -> io::Result<Tables> {
    Tables::new()
        .create_semaphore(rt, 1, 2)?
        .create_mutex(rt, 5, 2)?
        .create_event(rt, 1, 0)?
        .create_event(rt, 1, 1)?
        .close(rt, 3)?
        .close(rt, 2)?
        .close(rt, 2)
}

// Handles 2 and 3 are given again, then the next that was never used.
fn created_again(rt: &impl Print, t: Tables) -> io::Result<Tables> {
    t.read_mutex(rt, 2)?
        .create_event(rt, 1, 0)?
        .create_semaphore(rt, 0, 9)?
        .create_mutex(rt, 0, 0)?
        .read_event(rt, 2)?
        .read_semaphore(rt, 3)
}

// Handle 2 is an auto-reset event and 4 a manual one.
fn reset_twice(rt: &impl Print, t: Tables) -> io::Result<Tables> {
    t.reset(rt, 2)?
        .reset(rt, 2)?
        .read_event(rt, 2)?
        .reset(rt, 4)?
        .reset(rt, 4)?
        .read_event(rt, 4)
}

// An empty wait place holds ticket 0, which is no ticket all the same.
fn cancelled(rt: &impl Print, t: Tables) -> io::Result<Tables> {
    t.cancel(rt, 0)?.cancel(rt, 1)?.cancel(rt, u64::MAX)
}

pub fn cases(rt: &impl Print) -> io::Result<()> {
    println!(rt; "-- places used again, reset, cancel")?;
    let t = closed(rt)?;
    let t = created_again(rt, t)?;
    let t = reset_twice(rt, t)?;
    cancelled(rt, t)?;
    Ok(())
}
