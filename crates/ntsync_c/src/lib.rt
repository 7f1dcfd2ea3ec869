// The C interface (include/ntsync.h): each public call under its C name, with the same equation. A slice is a pointer
// and its number of elements.
#![tactic(auto)]

ghost use Rattle.std.specs.Prelude.{◌≡◌, [], ◌∷◌};
ghost use Rattle.model.specs.Calls.{create, close, reset_event, read, signal, cancel, snapshot, wait, expire};
ghost use Rattle.model.specs.Calls.{post, unlock, kill, set_event, pulse_event, a_semaphore, a_mutex, an_event};
ghost use Rattle.model.specs.Calls.{nothing_lent, wake_lent, buffer_lent, asks};
ghost use Rattle.model.specs.Steps.{table_step, make_tables, seen, sees};
ghost use Rattle.model.specs.Restore.{restore_tables};
ghost use Rattle.model.specs.Waits.{any, all};

use ntsync::{Created, EventState, MutexState, Restored, SemaphoreState, Waited, Written};
use signals::Changed;

// It rises with every change that a host must know of; the header has the same number, and says which those are.
pub const VERSION: u32 = 5;

#[unsafe(no_mangle)]
pub extern "C" fn ntsync_version() -> u32
    ensures { result ≡ 5 }
{
    VERSION
}

#[unsafe(no_mangle)]
pub extern "C" fn ntsync_init(tables: &mut [u64]) -> u32
    ensures { seen (make_tables tables.old)
        ≡ sees (result ∷ 0 ∷ 0 ∷ 0 ∷ []) nothing_lent tables.new }
{
    ntsync::init(tables)
}

#[unsafe(no_mangle)]
pub extern "C" fn ntsync_create_sem(tables: &mut [u64], count: u32, max: u32) -> Created
    ensures { seen (table_step tables.old (asks (create a_semaphore count max) nothing_lent))
        ≡ sees (result.answer ∷ result.handle ∷ 0 ∷ 0 ∷ []) nothing_lent tables.new }
{
    ntsync::create_sem(tables, count, max)
}

#[unsafe(no_mangle)]
pub extern "C" fn ntsync_create_mutex(tables: &mut [u64], owner: u32, count: u32) -> Created
    ensures { seen (table_step tables.old (asks (create a_mutex owner count) nothing_lent))
        ≡ sees (result.answer ∷ result.handle ∷ 0 ∷ 0 ∷ []) nothing_lent tables.new }
{
    ntsync::create_mutex(tables, owner, count)
}

#[unsafe(no_mangle)]
pub extern "C" fn ntsync_create_event(tables: &mut [u64], signaled: u32, manual: u32) -> Created
    ensures { seen (table_step tables.old (asks (create an_event signaled manual) nothing_lent))
        ≡ sees (result.answer ∷ result.handle ∷ 0 ∷ 0 ∷ []) nothing_lent tables.new }
{
    ntsync::create_event(tables, signaled, manual)
}

#[unsafe(no_mangle)]
pub extern "C" fn ntsync_read_sem(tables: &[u64], handle: u32) -> SemaphoreState
    ensures { seen (table_step tables.now (asks (read a_semaphore handle) nothing_lent))
        ≡ sees (result.answer ∷ result.count ∷ result.max ∷ 0 ∷ []) nothing_lent tables.now }
{
    ntsync::read_sem(tables, handle)
}

#[unsafe(no_mangle)]
pub extern "C" fn ntsync_read_mutex(tables: &[u64], handle: u32) -> MutexState
    ensures { seen (table_step tables.now (asks (read a_mutex handle) nothing_lent))
        ≡ sees (result.answer ∷ result.owner ∷ result.count ∷ 0 ∷ []) nothing_lent tables.now }
{
    ntsync::read_mutex(tables, handle)
}

#[unsafe(no_mangle)]
pub extern "C" fn ntsync_read_event(tables: &[u64], handle: u32) -> EventState
    ensures { seen (table_step tables.now (asks (read an_event handle) nothing_lent))
        ≡ sees (result.answer ∷ result.signaled ∷ result.manual ∷ 0 ∷ []) nothing_lent tables.now }
{
    ntsync::read_event(tables, handle)
}

#[unsafe(no_mangle)]
pub extern "C" fn ntsync_close(tables: &mut [u64], handle: u32) -> u32
    ensures { seen (table_step tables.old (asks (close handle) nothing_lent))
        ≡ sees (result ∷ 0 ∷ 0 ∷ 0 ∷ []) nothing_lent tables.new }
{
    ntsync::close(tables, handle)
}

#[unsafe(no_mangle)]
pub extern "C" fn ntsync_reset(tables: &mut [u64], handle: u32) -> Changed
    ensures { seen (table_step tables.old (asks (reset_event handle) nothing_lent))
        ≡ sees (result.answer ∷ result.previous ∷ 0 ∷ result.woken ∷ []) nothing_lent tables.new }
{
    ntsync::reset(tables, handle)
}

#[unsafe(no_mangle)]
pub extern "C" fn ntsync_cancel(tables: &mut [u64], ticket: u64) -> u32
    ensures { seen (table_step tables.old (asks (cancel ticket) nothing_lent))
        ≡ sees (result ∷ 0 ∷ 0 ∷ 0 ∷ []) nothing_lent tables.new }
{
    ntsync::cancel(tables, ticket)
}

#[unsafe(no_mangle)]
pub extern "C" fn ntsync_wait_any(
    tables: &mut [u64],
    handles: &[u32],
    owner: u32,
    alert: u32,
    flags: u32,
    pad: u32,
    timeout: u64,
    time: u64,
) -> Waited
    ensures { seen (table_step tables.old
        (asks (wait any handles.now owner flags pad alert timeout time) nothing_lent))
        ≡ sees (result.answer ∷ result.index ∷ result.ticket ∷ 0 ∷ []) nothing_lent tables.new }
{
    ntsync::wait_any(tables, handles, owner, alert, flags, pad, timeout, time)
}

#[unsafe(no_mangle)]
pub extern "C" fn ntsync_wait_all(
    tables: &mut [u64],
    handles: &[u32],
    owner: u32,
    alert: u32,
    flags: u32,
    pad: u32,
    timeout: u64,
    time: u64,
) -> Waited
    ensures { seen (table_step tables.old
        (asks (wait all handles.now owner flags pad alert timeout time) nothing_lent))
        ≡ sees (result.answer ∷ result.index ∷ result.ticket ∷ 0 ∷ []) nothing_lent tables.new }
{
    ntsync::wait_all(tables, handles, owner, alert, flags, pad, timeout, time)
}

#[unsafe(no_mangle)]
pub extern "C" fn ntsync_post(
    tables: &mut [u64],
    wake: &mut [u64],
    handle: u32,
    add: u32,
) -> Changed
    ensures { seen (table_step tables.old
        (asks (signal (post add) handle) (wake_lent wake.old)))
        ≡ sees (result.answer ∷ result.previous ∷ 0 ∷ result.woken ∷ []) (wake_lent wake.new) tables.new }
{
    ntsync::post(tables, wake, handle, add)
}

#[unsafe(no_mangle)]
pub extern "C" fn ntsync_unlock(
    tables: &mut [u64],
    wake: &mut [u64],
    handle: u32,
    owner: u32,
) -> Changed
    ensures { seen (table_step tables.old
        (asks (signal (unlock owner) handle) (wake_lent wake.old)))
        ≡ sees (result.answer ∷ result.previous ∷ 0 ∷ result.woken ∷ []) (wake_lent wake.new) tables.new }
{
    ntsync::unlock(tables, wake, handle, owner)
}

#[unsafe(no_mangle)]
pub extern "C" fn ntsync_kill_owner(
    tables: &mut [u64],
    wake: &mut [u64],
    handle: u32,
    owner: u32,
) -> Changed
    ensures { seen (table_step tables.old
        (asks (signal (kill owner) handle) (wake_lent wake.old)))
        ≡ sees (result.answer ∷ result.previous ∷ 0 ∷ result.woken ∷ []) (wake_lent wake.new) tables.new }
{
    ntsync::kill_owner(tables, wake, handle, owner)
}

#[unsafe(no_mangle)]
pub extern "C" fn ntsync_set(tables: &mut [u64], wake: &mut [u64], handle: u32) -> Changed
    ensures { seen (table_step tables.old
        (asks (signal set_event handle) (wake_lent wake.old)))
        ≡ sees (result.answer ∷ result.previous ∷ 0 ∷ result.woken ∷ []) (wake_lent wake.new) tables.new }
{
    ntsync::set(tables, wake, handle)
}

#[unsafe(no_mangle)]
pub extern "C" fn ntsync_pulse(tables: &mut [u64], wake: &mut [u64], handle: u32) -> Changed
    ensures { seen (table_step tables.old
        (asks (signal pulse_event handle) (wake_lent wake.old)))
        ≡ sees (result.answer ∷ result.previous ∷ 0 ∷ result.woken ∷ []) (wake_lent wake.new) tables.new }
{
    ntsync::pulse(tables, wake, handle)
}

#[unsafe(no_mangle)]
pub extern "C" fn ntsync_expire(
    tables: &mut [u64],
    wake: &mut [u64],
    clock: u32,
    time: u64,
) -> Changed
    ensures { seen (table_step tables.old (asks (expire clock time) (wake_lent wake.old)))
        ≡ sees (result.answer ∷ result.previous ∷ 0 ∷ result.woken ∷ []) (wake_lent wake.new) tables.new }
{
    ntsync::expire(tables, wake, clock, time)
}

#[unsafe(no_mangle)]
pub extern "C" fn ntsync_snapshot(tables: &[u64], buffer: &mut [u8]) -> Written
    ensures { seen (table_step tables.now (asks snapshot (buffer_lent buffer.old)))
        ≡ sees (result.answer ∷ result.length ∷ 0 ∷ 0 ∷ []) (buffer_lent buffer.new) tables.now }
{
    ntsync::snapshot(tables, buffer)
}

#[unsafe(no_mangle)]
pub extern "C" fn ntsync_restore(tables: &mut [u64], text: &[u8]) -> Restored
    ensures { seen (restore_tables tables.old text.now)
        ≡ sees (result.answer ∷ result.offset ∷ 0 ∷ 0 ∷ []) nothing_lent tables.new }
{
    ntsync::restore(tables, text)
}
