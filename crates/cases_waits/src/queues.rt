// The limits of the queue: 32 waits, 64 handles in a list, handle 512, the last ticket.
use call_lines::memory::{Cell, Cells, Tables};
use call_lines::waiting::{MONOTONIC, NEVER, Terms};
use call_lines::woken::WAKE_LENGTH;
use std::io;

// ---- many calls in a row

// Semaphores, as many as get the handles 1, 2, 3 and on, at most n.
fn created(rt: &impl Print, n: u32) -> io::Result<Tables> {
    Tables::new().in_a_row(
        rt,
        "created in a row",
        n,
        |cells, i| ntsync::create_sem(cells, 0, 1).handle == i,
    )
}

// Whether the post was taken and woke nobody.
fn is_posted(t: &mut Cells, handle: u32) -> bool {
    let r = ntsync::post(t, &mut [0; WAKE_LENGTH], handle, 1);
    r.answer == 0 && r.woken == 0
}

// Posts to the handles 1, 2, 3 and on, at most n, until one is refused or wakes a wait.
fn posted(rt: &impl Print, t: Tables, n: u32) -> io::Result<Tables> {
    t.in_a_row(rt, "posts in a row that woke nobody", n, is_posted)
}

// ---- 32 waits

fn at_full_queue(rt: &impl Print, t: Tables) -> io::Result<Tables> {
    t.any(rt, &[1], 7)?
        .all(rt, &[1, 2], 7)?
        .wait_any(rt, &[1], Terms::of(7).until(MONOTONIC, 5, 5))?
        .any(rt, &[1, 2], 7)?
        .any(rt, &[2], 7)?
        .wait_any(rt, &[1], Terms::of(7).alerted(3))?
        .read_semaphore(rt, 2)?
        .read_event(rt, 3)
}

// Ticket 33 stands in the place of ticket 17 and is woken last all the same.
fn full_queue(rt: &impl Print) -> io::Result<()> {
    let t = Tables::new()
        .create_event(rt, 0, 1)?
        .create_semaphore(rt, 1, 1)?
        .create_event(rt, 1, 0)?
        .fill_queue(rt)?;
    at_full_queue(rt, t)?
        .cancel(rt, 17)?
        .any(rt, &[1], 7)?
        .any(rt, &[1], 7)?
        .set(rt, 1)?
        .read_event(rt, 1)?;
    Ok(())
}

// ---- 64 handles

// The handles 1, 2, 3 and on.
fn numbered<const N: usize>() -> [u32; N] {
    let mut list = [0; N];
    for (place, handle) in list.iter_mut().zip(1..) {
        *place = handle;
    }
    list
}

fn long_any(rt: &impl Print, t: Tables, list: &[u32]) -> io::Result<Tables> {
    t.any(rt, list, 7)?
        .post(rt, 64, 1)?
        .post(rt, 64, 1)?
        .any(rt, list, 7)?
        .read_semaphore(rt, 64)
}

fn long_all(rt: &impl Print, t: Tables, list: &[u32]) -> io::Result<Tables> {
    let t = posted(rt, t.all(rt, list, 7)?, 63)?
        .post(rt, 64, 1)?
        .read_semaphore(rt, 1)?
        .read_semaphore(rt, 64)?;
    posted(rt, t, 64)?
        .all(rt, list, 7)?
        .read_semaphore(rt, 1)?
        .read_semaphore(rt, 64)
}

fn long_alert(rt: &impl Print, t: Tables, list: &[u32]) -> io::Result<Tables> {
    let alerted = Terms::of(7).alerted(66);
    t.create_event(rt, 1, 0)?
        .wait_all(rt, list, alerted)?
        .read_event(rt, 66)
}

fn sixty_four(rt: &impl Print) -> io::Result<Tables> {
    let list = numbered::<64>();
    let t = long_any(rt, created(rt, 65)?, &list)?;
    let t = long_all(rt, t, &list)?;
    long_alert(rt, t, &list)
}

// All are signaled, so that only the length stands against the wait.
fn sixty_five(rt: &impl Print, t: Tables) -> io::Result<()> {
    let list = numbered::<65>();
    posted(rt, t, 65)?.any(rt, &list, 7)?.all(rt, &list, 7)?;
    Ok(())
}

// ---- handle 512

fn last_semaphore(rt: &impl Print, t: Tables) -> io::Result<Tables> {
    t.any(rt, &[512], 7)?
        .all(rt, &[512, 511], 8)?
        .post(rt, 512, 1)?
        .post(rt, 512, 1)?
        .post(rt, 511, 1)?
        .read_semaphore(rt, 512)?
        .any(rt, &[513], 7)?
        .post(rt, 513, 1)
}

fn last_handle(rt: &impl Print) -> io::Result<()> {
    last_semaphore(rt, created(rt, 512)?)?
        .close(rt, 512)?
        .create_event(rt, 0, 0)?
        .wait_any(rt, &[511], Terms::of(7).alerted(512))?
        .set(rt, 512)?
        .read_event(rt, 512)?;
    Ok(())
}

// ---- the last ticket

fn next(rt: &impl Print, t: Tables) -> io::Result<Tables> {
    println!(rt; "next ticket: {}", t.cell(Cell::NextTicket))?;
    Ok(t)
}

fn no_ticket(rt: &impl Print, t: Tables) -> io::Result<Tables> {
    t.any(rt, &[1], 8)?
        .all(rt, &[1, 2], 8)?
        .wait_any(rt, &[1], Terms::of(8).until(MONOTONIC, 5, 5))?
        .any(rt, &[1, 2], 8)?
        .read_semaphore(rt, 2)
}

// The last ticket is 18446744073709551614; after it none is given, though the queue is empty again.
fn last_ticket(rt: &impl Print) -> io::Result<()> {
    let t = Tables::new()
        .create_event(rt, 0, 1)?
        .create_semaphore(rt, 1, 1)?
        .put_next(rt, "next ticket written:", NEVER - 1)?
        .any(rt, &[1], 7)?;
    let t = next(rt, t)?;
    let t = no_ticket(rt, t)?.set(rt, 1)?.any(rt, &[2], 8)?;
    next(rt, t)?;
    Ok(())
}

// The lack of a place is told before the lack of a ticket.
fn full_and_spent(rt: &impl Print) -> io::Result<()> {
    Tables::new()
        .create_event(rt, 0, 1)?
        .fill_queue(rt)?
        .put_next(rt, "next ticket written:", NEVER)?
        .any(rt, &[1], 7)?
        .cancel(rt, 5)?
        .any(rt, &[1], 7)?;
    Ok(())
}

pub fn cases(rt: &impl Print) -> io::Result<()> {
    println!(rt; "-- the limits of the queue")?;
    full_queue(rt)?;
    sixty_five(rt, sixty_four(rt)?)?;
    last_handle(rt)?;
    last_ticket(rt)?;
    full_and_spent(rt)?;
    Ok(())
}
