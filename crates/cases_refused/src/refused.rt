// What the waits and the calls that wake refuse, and which refusal is told first.
use call_lines::memory::Tables;
use call_lines::verdict::{altered, rest};
use call_lines::waiting::{MONOTONIC, NEVER, REAL_TIME, Terms};
use call_lines::wakes;
use call_lines::wakes::Targets;
use call_lines::woken::{UNTOUCHED, WAKE_LENGTH, is_untouched};
use std::io;

// Handles: 1 unset auto event, 2 mutex of owner 5, 3 set manual event, 4 semaphore; place 5 is empty.
fn objects(rt: &impl Print) -> io::Result<Tables> {
    Tables::new()
        .create_event(rt, 0, 0)?
        .create_mutex(rt, 5, 2)?
        .create_event(rt, 1, 1)?
        .create_semaphore(rt, 0, 3)
}

// ---- the arguments of a wait

fn both_of(rt: &impl Print, t: Tables, list: &[u32]) -> io::Result<Tables> {
    t.any(rt, list, 7)?.all(rt, list, 7)
}

fn lengths(rt: &impl Print, t: Tables) -> io::Result<Tables> {
    let t = both_of(rt, t, &[3; 65])?;
    both_of(rt, t, &[3; 3000])
}

// No handle, no place, and an empty place.
const BAD_HANDLES: [u32; 4] = [0, 513, u32::MAX, 5];

// A bad handle is refused behind a signaled object too.
fn handles(rt: &impl Print, mut t: Tables) -> io::Result<Tables> {
    for handle in BAD_HANDLES {
        t = both_of(rt, t, &[handle])?;
    }
    for handle in BAD_HANDLES {
        t = both_of(rt, t, &[3, handle])?;
    }
    Ok(t)
}

// The set manual event in the list would serve each of these waits at once.
fn with(rt: &impl Print, t: Tables, terms: Terms) -> io::Result<Tables> {
    t.wait_any(rt, &[3], terms)?.wait_all(rt, &[3], terms)
}

// A semaphore, a mutex, no event, and at last an event.
fn alerts(rt: &impl Print, mut t: Tables) -> io::Result<Tables> {
    for alert in [4, 2, 513, 5, u32::MAX, 1] {
        t = with(rt, t, Terms::of(7).alerted(alert))?;
    }
    Ok(t)
}

fn numbers(rt: &impl Print, mut t: Tables) -> io::Result<Tables> {
    let terms = Terms::of(7);
    for flags in [2, 3, u32::MAX] {
        t = with(rt, t, Terms { flags, ..terms })?;
    }
    for pad in [1, u32::MAX] {
        t = with(rt, t, Terms { pad, ..terms })?;
    }
    let t = with(rt, t, Terms::of(0))?;
    let real_time = Terms {
        flags: REAL_TIME,
        ..Terms::of(u32::MAX)
    };
    with(rt, t, real_time)
}

// For all a handle stands once, the alert counted; for any it may stand again.
fn repeated(rt: &impl Print, t: Tables) -> io::Result<()> {
    t.all(rt, &[3, 3], 7)?
        .all(rt, &[3, 4, 3], 7)?
        .wait_all(rt, &[3], Terms::of(7).alerted(3))?
        .wait_all(rt, &[1, 4], Terms::of(7).alerted(1))?
        .any(rt, &[3, 3], 7)?
        .wait_any(rt, &[3], Terms::of(7).alerted(3))?
        .any(rt, &[1, 4, 1], 7)?
        .wait_any(rt, &[1, 4], Terms::of(7).alerted(1))?;
    Ok(())
}

// A bad wait is told so whether its time is up, the queue is full or the tickets are spent.
fn before_room(rt: &impl Print) -> io::Result<()> {
    Tables::new()
        .create_event(rt, 0, 1)?
        .fill_queue(rt)?
        .any(rt, &[0], 7)?
        .all(rt, &[1, 1], 7)?
        .any(rt, &[1], 0)?
        .wait_any(rt, &[1], Terms::of(7).until(2, 5, 5))?
        .any(rt, &[1], 7)?
        .put_next(rt, "next ticket written:", NEVER)?
        .any(rt, &[513], 7)?
        .put_next(rt, "next ticket written:", 0)?
        .any(rt, &[513], 7)?
        .all(rt, &[1], 7)?;
    Ok(())
}

pub fn waits(rt: &impl Print) -> io::Result<()> {
    println!(rt; "-- what a wait refuses")?;
    let t = lengths(rt, objects(rt)?)?;
    let t = handles(rt, t)?;
    let t = alerts(rt, t)?;
    let t = numbers(rt, t)?;
    repeated(rt, t)?;
    before_room(rt)
}

// ---- wake lists

// Nobody is queued, so that no list receives a record.
fn ask(rt: &impl Print, t: Tables, wake: &mut [u64], at: Targets) -> io::Result<Tables> {
    let length = wake.len();
    let Targets {
        semaphore,
        mutex,
        event,
        clock,
    } = at;
    print!(rt; "wake list of {length}, handles {semaphore} {mutex} {event}, clock {clock}:")?;
    let mut cells = t.cells;
    wakes::ask(rt, &mut cells, wake, at)?;
    let altered = altered(&cells, &t.cells);
    let rest = rest(is_untouched(wake, 0));
    println!(rt; " {altered} {rest}")?;
    Ok(Tables { cells })
}

const GOOD: Targets = Targets {
    semaphore: 4,
    mutex: 2,
    event: 1,
    clock: MONOTONIC,
};

const BAD: Targets = Targets {
    semaphore: 513,
    mutex: 0,
    event: 5,
    clock: 2,
};

// A short list is told before a bad handle.
fn ask_twice(rt: &impl Print, t: Tables, wake: &mut [u64]) -> io::Result<Tables> {
    let t = ask(rt, t, wake, GOOD)?;
    ask(rt, t, wake, BAD)
}

fn ask_lists(rt: &impl Print, t: Tables) -> io::Result<Tables> {
    let t = ask_twice(rt, t, &mut [UNTOUCHED; 0])?;
    let t = ask_twice(rt, t, &mut [UNTOUCHED; 1])?;
    let t = ask_twice(rt, t, &mut [UNTOUCHED; WAKE_LENGTH - 1])?;
    ask_twice(rt, t, &mut [UNTOUCHED; WAKE_LENGTH])
}

pub fn wake_lists(rt: &impl Print) -> io::Result<()> {
    println!(rt; "-- short wake lists")?;
    let t = ask_lists(rt, objects(rt)?)?.put_next(rt, "next ticket written:", 0)?;
    ask_lists(rt, t)?;
    Ok(())
}

// ---- the arguments of the calls that wake

fn owners(rt: &impl Print, t: Tables) -> io::Result<Tables> {
    t.unlock(rt, 2, 6)?
        .kill_owner(rt, 2, 6)?
        .unlock(rt, 2, 0)?
        .kill_owner(rt, 2, 0)?
        .unlock(rt, 2, 5)?
        .unlock(rt, 2, 5)?
        .read_mutex(rt, 2)
}

// The mutex has no owner now, and number 0 is none either.
fn no_owner(rt: &impl Print, t: Tables) -> io::Result<Tables> {
    t.unlock(rt, 2, 5)?
        .kill_owner(rt, 2, 5)?
        .unlock(rt, 2, 0)?
        .kill_owner(rt, 2, 0)
}

fn abandoned(rt: &impl Print, t: Tables) -> io::Result<Tables> {
    t.any(rt, &[2], 6)?
        .kill_owner(rt, 2, 6)?
        .kill_owner(rt, 2, 6)?
        .unlock(rt, 2, 6)?
        .read_mutex(rt, 2)
}

// The sum counts as a whole number: it does not wrap to a small one.
fn maximum(rt: &impl Print, t: Tables) -> io::Result<Tables> {
    t.post(rt, 4, 4)?
        .post(rt, 4, 3)?
        .post(rt, 4, 1)?
        .post(rt, 4, u32::MAX)?
        .post(rt, 4, 0)?
        .create_semaphore(rt, u32::MAX, u32::MAX)?
        .post(rt, 5, 1)?
        .post(rt, 5, u32::MAX)?
        .post(rt, 5, 0)?
        .close(rt, 5)
}

fn wrong_kind(rt: &impl Print, t: Tables) -> io::Result<Tables> {
    t.post(rt, 1, u32::MAX)?
        .unlock(rt, 1, 6)?
        .kill_owner(rt, 1, 6)?
        .post(rt, 2, u32::MAX)?
        .set(rt, 2)?
        .pulse(rt, 2)?
        .unlock(rt, 4, 6)?
        .kill_owner(rt, 4, 6)?
        .set(rt, 4)?
        .pulse(rt, 4)
}

// The additions and owners would be refused too, after the kind.
fn no_object(rt: &impl Print, t: Tables, handle: u32) -> io::Result<Tables> {
    t.post(rt, handle, u32::MAX)?
        .unlock(rt, handle, 6)?
        .kill_owner(rt, handle, 6)?
        .set(rt, handle)?
        .pulse(rt, handle)
}

pub fn changes(rt: &impl Print) -> io::Result<()> {
    println!(rt; "-- what the calls that wake refuse")?;
    let t = owners(rt, objects(rt)?)?;
    let t = no_owner(rt, t)?;
    let t = abandoned(rt, t)?;
    let t = maximum(rt, t)?;
    let mut t = wrong_kind(rt, t)?;
    for handle in BAD_HANDLES {
        t = no_object(rt, t, handle)?;
    }
    Ok(())
}
