// All 512 places in use, and numbers that are no handle.
use call_lines::memory::{Cells, Tables};
use std::io;

const PLACES: u32 = 512;

// A semaphore, a mutex and an event in turn.
fn create_some(t: &mut Cells, i: u32) -> u32 {
    match i % 3 {
        1 => ntsync::create_sem(t, 1, 2).handle,
        2 => ntsync::create_mutex(t, 5, 2).handle,
        _ => ntsync::create_event(t, 1, 0).handle,
    }
}

// Objects, as many as get the handles 1, 2, 3 and on.
fn filled(rt: &impl Print) -> io::Result<Tables> {
    Tables::new().in_a_row(
        rt,
        "created in a row",
        PLACES,
        |cells, i| create_some(cells, i) == i,
    )
}

// A bad argument is refused before the lack of room.
fn no_room(rt: &impl Print, t: Tables) -> io::Result<Tables> {
    t.create_semaphore(rt, 1, 2)?
        .create_mutex(rt, 5, 2)?
        .create_event(rt, 1, 0)?
        .create_semaphore(rt, 2, 1)?
        .create_semaphore(rt, 0, 0)?
        .create_mutex(rt, 0, 1)
}

fn in_use(rt: &impl Print, t: Tables) -> io::Result<Tables> {
    t.read_semaphore(rt, 1)?
        .read_event(rt, 510)?
        .read_semaphore(rt, 511)?
        .read_mutex(rt, 512)
}

// The handle is none, or the number of no object.
fn no_handle(rt: &impl Print, t: Tables, handle: u32) -> io::Result<Tables> {
    t.read_semaphore(rt, handle)?
        .read_mutex(rt, handle)?
        .read_event(rt, handle)?
        .reset(rt, handle)?
        .close(rt, handle)
}

// Handle 511 is a semaphore, 512 a mutex and 510 an event.
fn wrong_kind(rt: &impl Print, t: Tables) -> io::Result<Tables> {
    t.read_mutex(rt, 511)?
        .read_event(rt, 511)?
        .reset(rt, 511)?
        .read_semaphore(rt, 512)?
        .read_event(rt, 512)?
        .reset(rt, 512)?
        .read_semaphore(rt, 510)?
        .read_mutex(rt, 510)
}

pub fn cases(rt: &impl Print) -> io::Result<()> {
    println!(rt; "-- all places in use")?;
    let t = no_room(rt, filled(rt)?)?;
    let t = in_use(rt, t)?;
    let t = no_handle(rt, t, 513)?;
    let t = no_handle(rt, t, 0)?;
    let t = no_handle(rt, t, u32::MAX)?;
    let t = wrong_kind(rt, t)?.close(rt, 512)?;
    no_handle(rt, t, 512)?;
    Ok(())
}
