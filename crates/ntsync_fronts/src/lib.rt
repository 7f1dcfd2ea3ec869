// The calls that wake once more, each handing out the filled front of the caller's own wake list, empty after a
// refusal; `res` gets the answer, the number handed back and the number of records. kept: an array, since
// the signature of a public call may not change.
#![tactic(auto)]

ghost use Rattle.std.specs.Prelude.{◌≡◌, length, take, ◌*◌, ◌≤◌};
ghost use Rattle.model.specs.Calls.{Operation, signal, expire, post, unlock, kill, set_event, pulse_event, wake_lent, asks};
ghost use Rattle.model.specs.Steps.{table_step, handed, hands};
ghost use Rattle.ntsync_fronts.specs.Asked.{Answers};

use signals::Changed;

fn front<'a>(wake: &'a mut [u64], woken: u32) -> &'a mut [u64]
    requires { 3 * woken ≤ length wake.old }
    ensures { (result.now ≡ take (3 * woken) wake.old) × (result.ref_ptr ≡ wake.entry.ref_ptr) }
{
    let end = 3 * (woken as usize);
    &mut wake[..end]
}

// A call that wakes, and the front of the wake list that it filled.
fn filled<'a, F: FnOnce(&mut [u64], &mut [u64]) -> Changed>(
    tables: &mut [u64],
    wake: &'a mut [u64],
    res: &mut [u64; 3],
    call: F,
) -> &'a mut [u64]
    requires callable { F.IsAlwaysCallable call }
    requires answers { (op : Operation) × Answers (F.post call) op }
    ensures filled { (op : Operation) → Answers (F.post call) op
        → handed (table_step tables.old (asks op (wake_lent wake.old))) ≡ hands res.new result.now tables.new }
    ensures place { result.ref_ptr ≡ wake.entry.ref_ptr }
{
    let r = call(tables, wake);
    *res = [
        u64::from(r.answer),
        u64::from(r.previous),
        u64::from(r.woken),
    ];
    front(wake, r.woken)
}

pub fn post_woken<'a>(
    tables: &mut [u64],
    wake: &'a mut [u64],
    res: &mut [u64; 3],
    handle: u32,
    add: u32,
) -> &'a mut [u64]
    ensures { (handed (table_step tables.old
        (asks (signal (post add) handle) (wake_lent wake.old)))
        ≡ hands res.new result.now tables.new) × (result.ref_ptr ≡ wake.entry.ref_ptr) }
{
    filled(
        tables,
        wake,
        res,
        |t, w| ntsync_signals::post(t, w, handle, add),
    )
}

pub fn unlock_woken<'a>(
    tables: &mut [u64],
    wake: &'a mut [u64],
    res: &mut [u64; 3],
    handle: u32,
    owner: u32,
) -> &'a mut [u64]
    ensures { (handed (table_step tables.old
        (asks (signal (unlock owner) handle) (wake_lent wake.old)))
        ≡ hands res.new result.now tables.new) × (result.ref_ptr ≡ wake.entry.ref_ptr) }
{
    filled(
        tables,
        wake,
        res,
        |t, w| ntsync_signals::unlock(t, w, handle, owner),
    )
}

pub fn kill_owner_woken<'a>(
    tables: &mut [u64],
    wake: &'a mut [u64],
    res: &mut [u64; 3],
    handle: u32,
    owner: u32,
) -> &'a mut [u64]
    ensures { (handed (table_step tables.old
        (asks (signal (kill owner) handle) (wake_lent wake.old)))
        ≡ hands res.new result.now tables.new) × (result.ref_ptr ≡ wake.entry.ref_ptr) }
{
    filled(
        tables,
        wake,
        res,
        |t, w| ntsync_signals::kill_owner(t, w, handle, owner),
    )
}

pub fn set_woken<'a>(
    tables: &mut [u64],
    wake: &'a mut [u64],
    res: &mut [u64; 3],
    handle: u32,
) -> &'a mut [u64]
    ensures { (handed (table_step tables.old
        (asks (signal set_event handle) (wake_lent wake.old)))
        ≡ hands res.new result.now tables.new) × (result.ref_ptr ≡ wake.entry.ref_ptr) }
{
    filled(tables, wake, res, |t, w| ntsync_signals::set(t, w, handle))
}

pub fn pulse_woken<'a>(
    tables: &mut [u64],
    wake: &'a mut [u64],
    res: &mut [u64; 3],
    handle: u32,
) -> &'a mut [u64]
    ensures { (handed (table_step tables.old
        (asks (signal pulse_event handle) (wake_lent wake.old)))
        ≡ hands res.new result.now tables.new) × (result.ref_ptr ≡ wake.entry.ref_ptr) }
{
    filled(
        tables,
        wake,
        res,
        |t, w| ntsync_signals::pulse(t, w, handle),
    )
}

pub fn expire_woken<'a>(
    tables: &mut [u64],
    wake: &'a mut [u64],
    res: &mut [u64; 3],
    clock: u32,
    time: u64,
) -> &'a mut [u64]
    ensures { (handed (table_step tables.old (asks (expire clock time) (wake_lent wake.old)))
        ≡ hands res.new result.now tables.new) × (result.ref_ptr ≡ wake.entry.ref_ptr) }
{
    filled(
        tables,
        wake,
        res,
        |t, w| ntsync_signals::expire(t, w, clock, time),
    )
}
