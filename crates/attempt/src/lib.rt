// An attempt over a list of handles: what is signaled, what a look finds, what is acquired. A fresh wait's list is its
// own. A queued one's stands in the tables: a look reads it there, and `take_list`, which writes them, is lent a copy.
#![tactic(auto)]

ghost use Rattle.std.specs.Prelude.{◌≡◌, length, Some};
ghost use Rattle.model.specs.Calls.{time_up};
ghost use Rattle.cells.specs.Attempt.{signaled_at, acquire_at, abandoned_at, look_any, look_all, acquire_first};
ghost use Rattle.cells.specs.Attempt.{abandoned_first, take_one, take_all, by_alert, try_any, try_all, try_list};
ghost use Rattle.tables.specs.Found.{Found};
ghost use Rattle.attempt.specs.Values.{tried_by};

use tables::Cells;

const NEVER: u64 = u64::MAX;

// How a wait is served.
#[derive(Clone, Copy)]
pub struct Served {
    pub index: u64,
    // something acquired had been abandoned
    pub abandoned: bool,
}

// ---- time

pub fn time_up(timeout: u64, time: u64) -> bool
    ensures { result ≡ time_up timeout time }
{
    (timeout <= time) & (timeout != NEVER)
}

// ---- one object, by handle

pub fn signaled(t: &Cells, asking: u64, h: u64) -> bool
    ensures { result ≡ signaled_at t.now asking h }
{
    let o = tables::named(t, h);
    o.signaled(asking)
}

// Whether it had been abandoned.
pub fn acquire(t: &mut Cells, asking: u64, h: u64) -> bool
    ensures { (t.new ≡ acquire_at t.old asking h) × (result ≡ abandoned_at t.old h) }
{
    let o = tables::named(t, h);
    let a = o.acquire(asking);
    tables::store(t, h, a.next);
    a.abandoned
}

// ---- a list of handles

// The lowest signaled index.
pub fn look_any(t: &Cells, asking: u64, list: &[u64]) -> Option<usize>
    ensures { Found result (look_any t.now asking list.now) (length list.now) }
{
    for (i, h) in list.iter().enumerate() {
        let here = signaled(t, asking, *h);
        if here {
            return Some(i);
        }
    }
    None
}

// Stops at the first object that is not signaled.
pub fn look_all(t: &Cells, asking: u64, list: &[u64]) -> bool
    ensures { result ≡ look_all t.now asking list.now }
{
    for h in list {
        let here = signaled(t, asking, *h);
        if !here {
            return false;
        }
    }
    true
}

// Every object of the list is acquired; whether one had been abandoned.
pub fn acquire_list(t: &mut Cells, asking: u64, list: &[u64]) -> bool
    ensures { (t.new ≡ acquire_first t.old asking list.now (length list.now))
        × (result ≡ abandoned_first t.old asking list.now (length list.now)) }
{
    let mut dead = false;
    for h in list {
        let here = acquire(t, asking, *h);
        dead = dead | here;
    }
    dead
}

// ---- attempts

// The object that h names is acquired; the wait is served with index i.
pub fn take_one(t: &mut Cells, asking: u64, h: u64, i: u64) -> Served
    ensures { tried_by (Some result) t.new ≡ take_one t.old asking h i }
{
    let dead = acquire(t, asking, h);
    Served {
        index: i,
        abandoned: dead,
    }
}

// Every object of the list is acquired; the wait is served with index 0.
pub fn take_list(t: &mut Cells, asking: u64, list: &[u64]) -> Served
    ensures { tried_by (Some result) t.new ≡ take_all t.old asking list.now }
{
    let dead = acquire_list(t, asking, list);
    Served {
        index: 0,
        abandoned: dead,
    }
}

// The alert, after a list of n handles.
pub fn by_alert(t: &mut Cells, asking: u64, alert: u64, n: u64) -> Option<Served>
    ensures { tried_by result t.new ≡ by_alert t.old asking alert n }
{
    let here = signaled(t, asking, alert);
    if here {
        return Some(take_one(t, asking, alert, n));
    }
    None
}

fn try_any(t: &mut Cells, asking: u64, alert: u64, list: &[u64]) -> Option<Served>
    ensures { tried_by result t.new ≡ try_any t.old asking alert list.now }
{
    match look_any(t, asking, list) {
        Some(i) => Some(take_one(t, asking, list[i], i as u64)),
        None => by_alert(t, asking, alert, list.len() as u64),
    }
}

fn try_all(t: &mut Cells, asking: u64, alert: u64, list: &[u64]) -> Option<Served>
    ensures { tried_by result t.new ≡ try_all t.old asking alert list.now }
{
    let ready = look_all(t, asking, list);
    if ready {
        return Some(take_list(t, asking, list));
    }
    by_alert(t, asking, alert, list.len() as u64)
}

// Mode 0 is any. kept: a number, since `try_list` of cells takes any; all three are the wait's, its list apart
pub fn try_list(t: &mut Cells, mode: u64, asking: u64, alert: u64, list: &[u64]) -> Option<Served>
    ensures { tried_by result t.new ≡ try_list t.old mode asking alert list.now }
{
    if mode == 0 {
        return try_any(t, asking, alert, list);
    }
    try_all(t, asking, alert, list)
}
