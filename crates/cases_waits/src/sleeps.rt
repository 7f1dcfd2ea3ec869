// Waits for any of no objects: the alert, the time or a cancel ends them. For all they are refused.
use call_lines::memory::Tables;
use call_lines::waiting::{MONOTONIC, NEVER, Terms};
use std::io;

fn sleep(rt: &impl Print, t: Tables, alert: u32, timeout: u64, time: u64) -> io::Result<Tables> {
    let terms = Terms::of(7).until(MONOTONIC, timeout, time).alerted(alert);
    t.wait_any(rt, &[], terms)
}

fn all_of_none(rt: &impl Print, t: Tables, alert: u32) -> io::Result<Tables> {
    let terms = Terms::of(7).alerted(alert);
    t.wait_all(rt, &[], terms)
}

// The index is the list's length; an auto event is cleared, a manual one is not.
fn by_alert(rt: &impl Print, auto: u32, manual: u32) -> io::Result<Tables> {
    let t = Tables::new()
        .create_event(rt, 0, 0)?
        .create_event(rt, 0, 1)?;
    let t = sleep(rt, t, auto, NEVER, 0)?
        .close(rt, auto)?
        .set(rt, manual)?
        .set(rt, auto)?
        .read_event(rt, auto)?;
    let t = sleep(rt, t, manual, 5, 5)?;
    let t = sleep(rt, t, auto, 6, 5)?.reset(rt, manual)?;
    sleep(rt, t, manual, 6, 5)?.pulse(rt, manual)?.set(rt, auto)
}

// The attempt comes before the time.
fn alert_at_once(rt: &impl Print, t: Tables, auto: u32) -> io::Result<Tables> {
    let t = sleep(rt, t.set(rt, auto)?, auto, 5, 5)?;
    sleep(rt, t, auto, 5, 5)
}

fn by_time(rt: &impl Print, t: Tables) -> io::Result<Tables> {
    let t = sleep(rt, t, 0, 50, 0)?
        .expire(rt, MONOTONIC, 49)?
        .expire(rt, MONOTONIC, 50)?;
    sleep(rt, t, 0, 50, 50)
}

// Without alert and without an end it can only be cancelled.
fn for_good(rt: &impl Print, t: Tables, auto: u32) -> io::Result<Tables> {
    sleep(rt, t, 0, NEVER, 0)?
        .set(rt, auto)?
        .expire(rt, MONOTONIC, NEVER)?
        .cancel(rt, 5)?
        .cancel(rt, 5)
}

pub fn cases(rt: &impl Print) -> io::Result<()> {
    println!(rt; "-- waits for no objects")?;
    let t = by_alert(rt, 1, 2)?;
    let t = alert_at_once(rt, t, 1)?;
    let t = by_time(rt, t)?;
    let t = for_good(rt, t, 1)?;
    let t = all_of_none(rt, t, 0)?;
    all_of_none(rt, t, 1)?;
    Ok(())
}
