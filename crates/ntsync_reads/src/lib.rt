// The public reads: an object's numbers, by its kind.
#![tactic(auto)]

ghost use Rattle.std.specs.Prelude.{◌≡◌, [], ◌∷◌};
ghost use Rattle.model.specs.Calls.{read, a_semaphore, a_mutex, an_event, nothing_lent, asks};
ghost use Rattle.model.specs.Steps.{table_step, seen, sees};
ghost use Rattle.cells.specs.Calls.{guarded, read_cells};
ghost use Rattle.calls.specs.Values.{left_by, numbers, mutex_numbers};
ghost use Rattle.ntsync_reads.specs.Values.{SemaphoreTold, MutexTold, EventTold};

use kinds::{Answer, Refusal};
use ntsync_guard::sound;

// kept: the C interface's structs, an answer with two numbers beside it
#[repr(C)]
#[derive(Clone, Copy)]
pub struct SemaphoreState {
    pub answer: u32,
    pub count: u32,
    pub max: u32,
}

#[repr(C)]
#[derive(Clone, Copy)]
pub struct MutexState {
    pub answer: u32,
    pub owner: u32,
    pub count: u32,
}

#[repr(C)]
#[derive(Clone, Copy)]
pub struct EventState {
    pub answer: u32,
    pub signaled: u32,
    pub manual: u32,
}

impl From<Result<(u32, u32), Refusal>> for SemaphoreState {
    ghost from_gives = { SemaphoreTold };

    fn from(r: Result<(u32, u32), Refusal>) -> SemaphoreState {
        match r {
            Ok((count, max)) => SemaphoreState {
                answer: 0,
                count,
                max,
            },
            Err(r) => SemaphoreState {
                answer: u32::from(r),
                count: 0,
                max: 0,
            },
        }
    }
}

impl From<Result<Option<(u32, u32)>, Refusal>> for MutexState {
    ghost from_gives = { MutexTold };

    fn from(r: Result<Option<(u32, u32)>, Refusal>) -> MutexState {
        match r {
            Ok(Some((owner, count))) => MutexState {
                answer: 0,
                owner,
                count,
            },
            Ok(None) => MutexState {
                answer: u32::from(Answer::OwnerDead),
                owner: 0,
                count: 0,
            },
            Err(r) => MutexState {
                answer: u32::from(r),
                owner: 0,
                count: 0,
            },
        }
    }
}

impl From<Result<(u32, u32), Refusal>> for EventState {
    ghost from_gives = { EventTold };

    fn from(r: Result<(u32, u32), Refusal>) -> EventState {
        match r {
            Ok((signaled, manual)) => EventState {
                answer: 0,
                signaled,
                manual,
            },
            Err(r) => EventState {
                answer: u32::from(r),
                signaled: 0,
                manual: 0,
            },
        }
    }
}

// kept: a function for each kind, where `?` hands on the refusal: `sound(tables).and_then(|t| ..)` in each public read
// is no plainer.
fn semaphore(tables: &[u64], handle: u32) -> Result<(u32, u32), Refusal>
    ensures { left_by numbers result tables.now
        ≡ guarded nothing_lent tables.now (read_cells a_semaphore handle tables.now nothing_lent) }
{
    calls::read_semaphore(sound(tables)?, u64::from(handle))
}

pub fn read_sem(tables: &[u64], handle: u32) -> SemaphoreState
    ensures { seen (table_step tables.now (asks (read a_semaphore handle) nothing_lent))
        ≡ sees (result.answer ∷ result.count ∷ result.max ∷ 0 ∷ []) nothing_lent tables.now }
{
    SemaphoreState::from(semaphore(tables, handle))
}

fn mutex(tables: &[u64], handle: u32) -> Result<Option<(u32, u32)>, Refusal>
    ensures { left_by mutex_numbers result tables.now
        ≡ guarded nothing_lent tables.now (read_cells a_mutex handle tables.now nothing_lent) }
{
    calls::read_mutex(sound(tables)?, u64::from(handle))
}

pub fn read_mutex(tables: &[u64], handle: u32) -> MutexState
    ensures { seen (table_step tables.now (asks (read a_mutex handle) nothing_lent))
        ≡ sees (result.answer ∷ result.owner ∷ result.count ∷ 0 ∷ []) nothing_lent tables.now }
{
    MutexState::from(mutex(tables, handle))
}

fn event(tables: &[u64], handle: u32) -> Result<(u32, u32), Refusal>
    ensures { left_by numbers result tables.now
        ≡ guarded nothing_lent tables.now (read_cells an_event handle tables.now nothing_lent) }
{
    calls::read_event(sound(tables)?, u64::from(handle))
}

pub fn read_event(tables: &[u64], handle: u32) -> EventState
    ensures { seen (table_step tables.now (asks (read an_event handle) nothing_lent))
        ≡ sees (result.answer ∷ result.signaled ∷ result.manual ∷ 0 ∷ []) nothing_lent tables.now }
{
    EventState::from(event(tables, handle))
}
