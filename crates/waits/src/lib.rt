// A fresh wait for any or for all: its refusals, one attempt, the time test, the queue.
#![tactic(auto)]

ghost use Rattle.std.specs.Prelude.{◌≡◌, ◌≤◌, length, take};
ghost use Rattle.model.specs.Sizes.{max_listed};
ghost use Rattle.model.specs.Calls.{nothing_lent};
ghost use Rattle.cells.specs.Calls.{bad_wait, later_cells, act_cells, wait_on_cells};
ghost use Rattle.waits.specs.Values.{waited_by};

use kinds::Refusal;
use tables::{Cells, Terms};

// What becomes of a wait that is not refused.
#[derive(Clone, Copy)]
pub enum Outcome {
    Served {
        index: u32,
        // something acquired had been abandoned
        abandoned: bool,
    },
    TimedOut,
    Queued {
        ticket: u64,
    },
}

fn bad_wait(t: &Cells, terms: Terms, list: &[u64], pad: u64) -> bool
    ensures { result ≡ bad_wait terms.mode list.now terms.owner terms.clock pad terms.alert t.now }
{
    let n = list.len();
    let alert = validity::proper_alert(t, terms.alert);
    let proper = validity::proper_list(t, terms.mode, list, terms.alert);
    (tables::MAX_LISTED < n)
        | !proper
        | (terms.owner == 0)
        | (1 < terms.clock)
        | !(pad == 0)
        | !alert
}

// After a failed attempt: the time is up, or there is room in the queue, or not.
// kept: terms, list and time singly, here and below: `wait` has the list that C lends, the others its copy, of another
// type.
fn later(t: &mut Cells, terms: Terms, list: &[u64], time: u64) -> Result<Outcome, Refusal>
    requires { length list.now ≤ max_listed }
    ensures { waited_by result t.new
        ≡ later_cells terms.mode list.now terms.owner terms.clock terms.alert terms.timeout time t.old nothing_lent }
{
    let up = attempt::time_up(terms.timeout, time);
    if up {
        return Ok(Outcome::TimedOut);
    }
    let p = tables::ticket_place(t, 0).ok_or(Refusal::NoRoom)?;
    let ticket = tables::next_ticket(t);
    if ticket == u64::MAX {
        return Err(Refusal::TicketsSpent);
    }
    tables::queue(t, p, terms, list);
    Ok(Outcome::Queued { ticket })
}

// The attempt comes first, whatever the time.
// Proved by the attribute alone: an answer would name places of this code, and refuse a body that means the same.
#[tactic(auto, using(attempt::proofs::Laws::index_le, crate::proofs::Laws::act_served, crate::proofs::Laws::act_later))]
fn act(t: &mut Cells, terms: Terms, list: &[u64], time: u64) -> Result<Outcome, Refusal>
    requires { length list.now ≤ max_listed }
    ensures { waited_by result t.new
        ≡ act_cells terms.mode list.now terms.owner terms.clock terms.alert terms.timeout time t.old nothing_lent }
{
    match attempt::try_list(t, terms.mode, terms.owner, terms.alert, list) {
        Some(served) => Ok(Outcome::Served {
            index: served.index as u32,
            abandoned: served.abandoned,
        }),
        None => later(t, terms, list, time),
    }
}

// The list's numbers, wider. kept: stored by index, since after `wide.iter_mut().zip(list)` no proof knows an element
fn widen(list: &[u32]) -> [u64; tables::MAX_LISTED]
    requires { length list.now ≤ max_listed }
    ensures { take (length list.now) result ≡ list.now }
{
    let mut wide = [0; tables::MAX_LISTED];
    for (i, h) in list.iter().enumerate() {
        wide[i] = u64::from(*h);
    }
    wide
}

pub fn wait(
    t: &mut Cells,
    terms: Terms,
    list: &[u32],
    pad: u64,
    time: u64,
) -> Result<Outcome, Refusal>
    ensures { waited_by result t.new
        ≡ wait_on_cells terms.mode list.now terms.owner terms.clock pad terms.alert terms.timeout time
        t.old nothing_lent }
{
    let n = list.len();
    if tables::MAX_LISTED < n {
        return Err(Refusal::Invalid);
    }
    let wide = widen(list);
    let list = &wide[..n];
    let bad = bad_wait(t, terms, list, pad);
    if bad {
        return Err(Refusal::Invalid);
    }
    act(t, terms, list, time)
}
