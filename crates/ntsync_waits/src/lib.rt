// The public waits, for any and for all.
#![tactic(auto)]

ghost use Rattle.std.specs.Prelude.{◌≡◌, [], ◌∷◌};
ghost use Rattle.model.specs.Calls.{wait, nothing_lent, asks};
ghost use Rattle.model.specs.Steps.{table_step, seen, sees};
ghost use Rattle.model.specs.Waits.{any, all};
ghost use Rattle.cells.specs.Calls.{wait_on_cells, guarded};
ghost use Rattle.waits.specs.Values.{waited_by};
ghost use Rattle.ntsync_waits.specs.Values.{WaitedBy};

use kinds::{Answer, Refusal};
use tables::Terms;
use waits::Outcome;

// kept: the C interface's struct, an answer with two numbers beside it
#[repr(C)]
#[derive(Clone, Copy)]
pub struct Waited {
    pub answer: u32,
    pub index: u32,
    pub ticket: u64,
}

// The numbers of include/ntsync.h.
impl From<Result<Outcome, Refusal>> for Waited {
    ghost from_gives = { WaitedBy };

    fn from(r: Result<Outcome, Refusal>) -> Waited {
        let (answer, index, ticket) = match r {
            Ok(Outcome::Served { index, abandoned }) => (Answer::acquired(abandoned), index, 0),
            Ok(Outcome::TimedOut) => (Answer::TimedOut, 0, 0),
            Ok(Outcome::Queued { ticket }) => (Answer::Queued, 0, ticket),
            Err(r) => {
                return Waited {
                    answer: u32::from(r),
                    index: 0,
                    ticket: 0,
                };
            }
        };
        Waited {
            answer: u32::from(answer),
            index,
            ticket,
        }
    }
}

// What C hands over, as the cells hold it.
fn terms(mode: u64, owner: u32, flags: u32, timeout: u64, alert: u32) -> Terms
    ensures { result ≡ record { mode = mode; owner = owner; clock = flags; timeout = timeout; alert = alert } }
{
    Terms {
        mode,
        owner: u64::from(owner),
        clock: u64::from(flags),
        timeout,
        alert: u64::from(alert),
    }
}

// A wait in valid tables.
fn wait(
    tables: &mut [u64],
    terms: Terms,
    list: &[u32],
    pad: u32,
    time: u64,
) -> Result<Outcome, Refusal>
    ensures { waited_by result tables.new ≡ guarded nothing_lent tables.old
        (wait_on_cells terms.mode list.now terms.owner terms.clock pad terms.alert terms.timeout time
        tables.old nothing_lent) }
{
    ntsync_guard::guarded(tables, |t| {
        waits::wait(t, terms, list, u64::from(pad), time)
    })
}

// kept: eight arguments, here and in `wait_all`: the signature of a public call may not change.
pub fn wait_any(
    tables: &mut [u64],
    list: &[u32],
    owner: u32,
    alert: u32,
    flags: u32,
    pad: u32,
    timeout: u64,
    time: u64,
) -> Waited
    ensures { seen (table_step tables.old
        (asks (wait any list.now owner flags pad alert timeout time) nothing_lent))
        ≡ sees (result.answer ∷ result.index ∷ result.ticket ∷ 0 ∷ []) nothing_lent tables.new }
{
    Waited::from(wait(
        tables,
        terms(0, owner, flags, timeout, alert),
        list,
        pad,
        time,
    ))
}

pub fn wait_all(
    tables: &mut [u64],
    list: &[u32],
    owner: u32,
    alert: u32,
    flags: u32,
    pad: u32,
    timeout: u64,
    time: u64,
) -> Waited
    ensures { seen (table_step tables.old
        (asks (wait all list.now owner flags pad alert timeout time) nothing_lent))
        ≡ sees (result.answer ∷ result.index ∷ result.ticket ∷ 0 ∷ []) nothing_lent tables.new }
{
    Waited::from(wait(
        tables,
        terms(1, owner, flags, timeout, alert),
        list,
        pad,
        time,
    ))
}
