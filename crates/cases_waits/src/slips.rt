// The slips that document 01 names, and the choice of the object that a wait takes.
use call_lines::memory::Tables;
use call_lines::waiting::Terms;
use std::io;

// The holder's own wait is served at once, the other's when the count falls to zero.
fn unlocked_in_steps(rt: &impl Print) -> io::Result<()> {
    Tables::new()
        .create_mutex(rt, 5, 2)?
        .any(rt, &[1], 6)?
        .any(rt, &[1], 5)?
        .unlock(rt, 1, 5)?
        .unlock(rt, 1, 5)?
        .unlock(rt, 1, 5)?
        .read_mutex(rt, 1)?;
    Ok(())
}

// The older wait lacks the event, takes nothing of the semaphore and leaves it to the younger.
fn all_or_nothing(rt: &impl Print) -> io::Result<()> {
    Tables::new()
        .create_semaphore(rt, 0, 1)?
        .create_event(rt, 0, 0)?
        .all(rt, &[1, 2], 7)?
        .any(rt, &[1], 8)?
        .post(rt, 1, 1)?
        .read_semaphore(rt, 1)?
        .set(rt, 2)?
        .post(rt, 1, 1)?
        .read_semaphore(rt, 1)?
        .read_event(rt, 2)?;
    Ok(())
}

// Answer 4 is no refusal: the mutex and what is listed with it are acquired.
fn abandoned(rt: &impl Print) -> io::Result<()> {
    Tables::new()
        .create_semaphore(rt, 1, 1)?
        .create_mutex(rt, 5, 1)?
        .kill_owner(rt, 2, 5)?
        .read_mutex(rt, 2)?
        .all(rt, &[1, 2], 6)?
        .read_semaphore(rt, 1)?
        .read_mutex(rt, 2)?;
    Ok(())
}

// The list comes before the alert, and the lower index before the higher.
fn order(rt: &impl Print) -> io::Result<()> {
    let alerted = Terms::of(7).alerted(1);
    Tables::new()
        .create_event(rt, 1, 0)?
        .create_semaphore(rt, 1, 1)?
        .create_event(rt, 1, 0)?
        .wait_any(rt, &[2, 3], alerted)?
        .wait_any(rt, &[2, 3], alerted)?
        .read_event(rt, 1)?
        .wait_any(rt, &[2, 3], alerted)?
        .wait_all(rt, &[2, 3], alerted)?
        .read_event(rt, 1)?
        .set(rt, 1)?
        .cancel(rt, 1)?;
    Ok(())
}

// With nobody queued a pulse leaves the event cleared.
fn pulse_alone(rt: &impl Print) -> io::Result<()> {
    Tables::new()
        .create_event(rt, 1, 1)?
        .pulse(rt, 1)?
        .pulse(rt, 1)?
        .set(rt, 1)?
        .set(rt, 1)?
        .read_event(rt, 1)?;
    Ok(())
}

pub fn cases(rt: &impl Print) -> io::Result<()> {
    println!(rt; "-- slips, list and alert")?;
    unlocked_in_steps(rt)?;
    all_or_nothing(rt)?;
    abandoned(rt)?;
    order(rt)?;
    pulse_alone(rt)
}
