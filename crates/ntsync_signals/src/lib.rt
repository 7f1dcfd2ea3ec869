// The public calls that wake. Each tests tables and wake list (`guarded_wake`) before its own work.
#![tactic(auto)]

ghost use Rattle.std.specs.Prelude.{◌≡◌, [], ◌∷◌};
ghost use Rattle.model.specs.Calls.{signal, expire, post, unlock, kill, set_event, pulse_event, wake_lent, asks};
ghost use Rattle.model.specs.Steps.{table_step, seen, sees};

use ntsync_guard::guarded_wake;
use signals::Changed;

pub fn post(tables: &mut [u64], wake: &mut [u64], handle: u32, add: u32) -> Changed
    ensures { seen (table_step tables.old
        (asks (signal (post add) handle) (wake_lent wake.old)))
        ≡ sees (result.answer ∷ result.previous ∷ 0 ∷ result.woken ∷ []) (wake_lent wake.new) tables.new }
{
    Changed::from(guarded_wake(tables, wake, |t, w| {
        signals::post(t, w, u64::from(handle), u64::from(add))
    }))
}

pub fn unlock(tables: &mut [u64], wake: &mut [u64], handle: u32, owner: u32) -> Changed
    ensures { seen (table_step tables.old
        (asks (signal (unlock owner) handle) (wake_lent wake.old)))
        ≡ sees (result.answer ∷ result.previous ∷ 0 ∷ result.woken ∷ []) (wake_lent wake.new) tables.new }
{
    Changed::from(guarded_wake(tables, wake, |t, w| {
        signals::unlock(t, w, u64::from(handle), u64::from(owner))
    }))
}

pub fn kill_owner(tables: &mut [u64], wake: &mut [u64], handle: u32, owner: u32) -> Changed
    ensures { seen (table_step tables.old
        (asks (signal (kill owner) handle) (wake_lent wake.old)))
        ≡ sees (result.answer ∷ result.previous ∷ 0 ∷ result.woken ∷ []) (wake_lent wake.new) tables.new }
{
    Changed::from(guarded_wake(tables, wake, |t, w| {
        signals::kill(t, w, u64::from(handle), u64::from(owner))
    }))
}

pub fn set(tables: &mut [u64], wake: &mut [u64], handle: u32) -> Changed
    ensures { seen (table_step tables.old
        (asks (signal set_event handle) (wake_lent wake.old)))
        ≡ sees (result.answer ∷ result.previous ∷ 0 ∷ result.woken ∷ []) (wake_lent wake.new) tables.new }
{
    Changed::from(guarded_wake(tables, wake, |t, w| {
        signals::set(t, w, u64::from(handle))
    }))
}

pub fn pulse(tables: &mut [u64], wake: &mut [u64], handle: u32) -> Changed
    ensures { seen (table_step tables.old
        (asks (signal pulse_event handle) (wake_lent wake.old)))
        ≡ sees (result.answer ∷ result.previous ∷ 0 ∷ result.woken ∷ []) (wake_lent wake.new) tables.new }
{
    Changed::from(guarded_wake(tables, wake, |t, w| {
        signals::pulse(t, w, u64::from(handle))
    }))
}

pub fn expire(tables: &mut [u64], wake: &mut [u64], clock: u32, time: u64) -> Changed
    ensures { seen (table_step tables.old (asks (expire clock time) (wake_lent wake.old)))
        ≡ sees (result.answer ∷ result.previous ∷ 0 ∷ result.woken ∷ []) (wake_lent wake.new) tables.new }
{
    Changed::from(guarded_wake(tables, wake, |t, w| {
        signals::expire(t, w, u64::from(clock), time)
    }))
}
