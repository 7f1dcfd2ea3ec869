// The public calls that make: tables, and objects in them.
#![tactic(auto)]

ghost use Rattle.std.specs.Prelude.{◌≡◌, [], ◌∷◌};
ghost use Rattle.model.specs.Calls.{create, a_semaphore, a_mutex, an_event, nothing_lent, asks};
ghost use Rattle.model.specs.Steps.{table_step, make_tables, seen, sees};
ghost use Rattle.cells.specs.Calls.{guarded};
ghost use Rattle.calls.specs.Values.{left_by, number, placed};
ghost use Rattle.ntsync_objects.specs.Values.{CreatedBy};

use kinds::{Event, Mutex, Object, Refusal, Semaphore};

// kept: the C interface's struct, an answer with a number beside it
#[repr(C)]
#[derive(Clone, Copy)]
pub struct Created {
    pub answer: u32,
    pub handle: u32,
}

impl From<Result<u32, Refusal>> for Created {
    ghost from_gives = { CreatedBy };

    fn from(r: Result<u32, Refusal>) -> Created {
        match r {
            Ok(handle) => Created { answer: 0, handle },
            Err(r) => Created {
                answer: u32::from(r),
                handle: 0,
            },
        }
    }
}

// Newly made tables; only the length is looked at.
pub fn init(tables: &mut [u64]) -> u32
    ensures { seen (make_tables tables.old)
        ≡ sees (result ∷ 0 ∷ 0 ∷ 0 ∷ []) nothing_lent tables.new }
{
    let Some(t) = tables.as_mut_array() else {
        return u32::from(Refusal::Corrupt);
    };
    tables::make(t);
    0
}

// A new object in valid tables; its handle.
fn place(tables: &mut [u64], new: Result<Object, Refusal>) -> Result<u32, Refusal>
    ensures { left_by number result tables.new
        ≡ guarded nothing_lent tables.old (left_by placed new tables.old) }
{
    ntsync_guard::guarded(tables, |t| calls::create(t, new))
}

pub fn create_sem(tables: &mut [u64], count: u32, max: u32) -> Created
    ensures { seen (table_step tables.old (asks (create a_semaphore count max) nothing_lent))
        ≡ sees (result.answer ∷ result.handle ∷ 0 ∷ 0 ∷ []) nothing_lent tables.new }
{
    Created::from(place(tables, Semaphore::create(count, max)))
}

pub fn create_mutex(tables: &mut [u64], owner: u32, count: u32) -> Created
    ensures { seen (table_step tables.old (asks (create a_mutex owner count) nothing_lent))
        ≡ sees (result.answer ∷ result.handle ∷ 0 ∷ 0 ∷ []) nothing_lent tables.new }
{
    Created::from(place(tables, Mutex::create(owner, count)))
}

pub fn create_event(tables: &mut [u64], signaled: u32, manual: u32) -> Created
    ensures { seen (table_step tables.old (asks (create an_event signaled manual) nothing_lent))
        ≡ sees (result.answer ∷ result.handle ∷ 0 ∷ 0 ∷ []) nothing_lent tables.new }
{
    Created::from(place(tables, Event::create(signaled, manual)))
}
