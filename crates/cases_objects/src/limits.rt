// What creating refuses and takes, at the borders of the numbers.
use call_lines::memory::Tables;
use std::io;

fn semaphores(rt: &impl Print, t: Tables) -> io::Result<Tables> {
    t.create_semaphore(rt, 2, 1)?
        .create_semaphore(rt, 1, 0)?
        .create_semaphore(rt, 0, 0)?
        .create_semaphore(rt, u32::MAX, u32::MAX - 1)?
        .create_semaphore(rt, u32::MAX, u32::MAX)?
        .read_semaphore(rt, 1)?
        .create_semaphore(rt, 0, 1)?
        .read_semaphore(rt, 2)?
        .create_semaphore(rt, 0, u32::MAX)?
        .read_semaphore(rt, 3)
}

fn mutexes(rt: &impl Print, t: Tables) -> io::Result<Tables> {
    t.create_mutex(rt, 0, 1)?
        .create_mutex(rt, 1, 0)?
        .create_mutex(rt, 0, u32::MAX)?
        .create_mutex(rt, u32::MAX, 0)?
        .create_mutex(rt, 0, 0)?
        .read_mutex(rt, 4)?
        .create_mutex(rt, u32::MAX, u32::MAX)?
        .read_mutex(rt, 5)
}

// A flag that is not zero counts as 1.
fn events(rt: &impl Print, t: Tables) -> io::Result<Tables> {
    t.create_event(rt, 7, 0)?
        .read_event(rt, 6)?
        .create_event(rt, 0, 7)?
        .read_event(rt, 7)?
        .create_event(rt, u32::MAX, u32::MAX)?
        .read_event(rt, 8)
}

pub fn cases(rt: &impl Print) -> io::Result<()> {
    println!(rt; "-- what creating refuses and takes")?;
    let t = semaphores(rt, Tables::new())?;
    let t = mutexes(rt, t)?;
    events(rt, t)?;
    Ok(())
}
