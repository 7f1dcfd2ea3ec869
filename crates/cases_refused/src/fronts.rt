// The calls that hand back the filled front of the caller's own wake list.
use call_lines::memory::{Cells, Tables};
use call_lines::verdict::{altered, rest};
use call_lines::waiting::{REAL_TIME, Terms};
use call_lines::woken::{UNTOUCHED, WAKE_LENGTH, is_untouched};
use std::io;

// Longer than a wake list has to be.
const LIST_LENGTH: usize = 100;

// Written to the first cell of the front, to be found in the list.
const MARK: u64 = 555;

fn cells(rt: &impl Print, front: &[u64]) -> io::Result<()> {
    for cell in front {
        print!(rt; " {cell}")?;
    }
    Ok(())
}

// Ends the line of a call on this wake list: the three numbers, the front's length and cells, the list's first cell
// after the mark, the tables and the rest of the list.
fn handed<F>(rt: &impl Print, t: Tables, wake: &mut [u64], call: F) -> io::Result<Tables>
where
    F: for<'a> FnOnce(&mut Cells, &'a mut [u64], &mut [u64; 3]) -> &'a mut [u64],
    requires { F.IsAlwaysCallable call }
{
    let mut after = t.cells;
    let mut result = [UNTOUCHED; 3];
    let front = call(&mut after, wake, &mut result);
    let from = front.len();
    cells(rt, &result)?;
    print!(rt; ", front of {from} cells:")?;
    cells(rt, front)?;
    if let Some(first) = front.first_mut() {
        *first = MARK;
    }
    let first = wake.first().copied().unwrap_or(0);
    let altered = altered(&after, &t.cells);
    let rest = rest(is_untouched(wake, from));
    println!(rt; "; first cell of the list {first} {altered} {rest}")?;
    Ok(Tables { cells: after })
}

fn post(rt: &impl Print, t: Tables, handle: u32, add: u32) -> io::Result<Tables> {
    print!(rt; "post_woken {handle} add {add}:")?;
    let wake = &mut [UNTOUCHED; LIST_LENGTH];
    handed(
        rt,
        t,
        wake,
        |t, wake, res| ntsync::post_woken(t, wake, res, handle, add),
    )
}

fn expire(rt: &impl Print, t: Tables, clock: u32, time: u64) -> io::Result<Tables> {
    print!(rt; "expire_woken clock {clock} time {time}:")?;
    let wake = &mut [UNTOUCHED; LIST_LENGTH];
    handed(
        rt,
        t,
        wake,
        |t, wake, res| ntsync::expire_woken(t, wake, res, clock, time),
    )
}

fn set(rt: &impl Print, t: Tables, wake: &mut [u64], handle: u32) -> io::Result<Tables> {
    print!(rt; "set_woken {handle}:")?;
    handed(
        rt,
        t,
        wake,
        |t, wake, res| ntsync::set_woken(t, wake, res, handle),
    )
}

fn queued(rt: &impl Print) -> io::Result<Tables> {
    Tables::new()
        .create_semaphore(rt, 0, 3)?
        .create_event(rt, 0, 0)?
        .any(rt, &[1], 7)?
        .all(rt, &[1], 8)?
        .wait_any(rt, &[2], Terms::of(9).until(REAL_TIME, 50, 0))
}

// After a refusal the front is empty: the mark is not in the list.
pub fn cases(rt: &impl Print) -> io::Result<()> {
    println!(rt; "-- fronts of the wake list")?;
    let t = post(rt, queued(rt)?, 1, 3)?.read_semaphore(rt, 1)?;
    let t = post(rt, t, 1, 3)?;
    let t = expire(rt, t, REAL_TIME, 49)?;
    let t = expire(rt, t, REAL_TIME, 50)?;
    let t = expire(rt, t, 2, 50)?;
    let t = set(rt, t, &mut [UNTOUCHED; LIST_LENGTH], 1)?;
    set(rt, t, &mut [UNTOUCHED; WAKE_LENGTH - 1], 2)?.read_event(rt, 2)?;
    Ok(())
}
