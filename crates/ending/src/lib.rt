// The queue by ticket: the next wait, the waits whose time is up, and how a wait leaves: its record, its place cleared.
#![tactic(auto)]

ghost use Rattle.std.specs.Prelude.{◌≡◌, ◌≤◌, ◌<◌, ℕ, Bool, length, IfSome};
ghost use Rattle.model.specs.Sizes.{wait_places, wake_length};
ghost use Rattle.cells.specs.Waits.{better, lowest, next_wait, put_record, clear_wait};
ghost use Rattle.cells.specs.Walk.{due_at, walked, end_cells};
ghost use Rattle.tables.specs.Found.{Found};
ghost use Rattle.ending.specs.Lowest.{lower_than, Tells};

use kinds::Answer;
use tables::Cells;

// Whether the ticket at place i is below that of the best place so far.
fn is_lower(t: &Cells, i: usize, best: Option<usize>) -> bool
    requires place { i < wait_places }
    requires best { IfSome best (λ b. b < wait_places) }
    ensures { result ≡ lower_than t.now i best }
{
    match best {
        Some(b) => tables::ticket_at(t, i) < tables::ticket_at(t, b),
        None => true,
    }
}

// Place i in place of the best so far, where it passes and its ticket is lower.
fn better(t: &Cells, passes: bool, best: Option<usize>, i: usize) -> Option<usize>
    requires place { i < wait_places }
    requires best { IfSome best (λ b. b < wait_places) }
    ensures bound { IfSome result (λ b. b < wait_places) }
    ensures lowest { (k : ℕ) → Found best k wait_places → Found result (better t.now (λ _. passes) k i) wait_places }
{
    if !passes {
        return best;
    }
    if is_lower(t, i, best) { Some(i) } else { best }
}

// Of the wait places that pass, the one of the lowest ticket.
fn lowest<F: Fn(usize) -> bool>(t: &Cells, passes: F) -> Option<usize>
    requires { (i : ℕ) → i < wait_places → F.pre passes i }
    ensures { (ok : ℕ → Bool) → Tells (F.post passes) ok → Found result (lowest t.now ok) wait_places }
{
    let mut best = None;
    for i in 0..tables::WAIT_PLACES {
        let here = passes(i);
        best = better(t, here, best, i);
    }
    best
}

// The place of the lowest ticket above last.
pub fn next_wait(t: &Cells, last: u64) -> Option<usize>
    ensures { Found result (next_wait t.now last) wait_places }
{
    lowest(t, |i| last < tables::ticket_at(t, i))
}

// A queued wait on this clock whose time is up.
fn due(t: &Cells, clock: u64, time: u64, p: usize) -> bool
    requires { p < wait_places }
    ensures { result ≡ due_at t.now clock time p }
{
    let w = tables::header_at(t, p);
    let up = attempt::time_up(w.terms.timeout, time);
    (0 < w.ticket) & ((w.terms.clock == clock) & up)
}

// Of the waits that are due, the place of the lowest ticket.
pub fn next_due(t: &Cells, clock: u64, time: u64) -> Option<usize>
    ensures { Found result (lowest t.now (due_at t.now clock time)) wait_places }
{
    lowest(t, |p| due(t, clock, time, p))
}

// What a wake list tells of a wait that leaves the queue. kept: the answer is its number, as the cell holds it, since a
// record can be written of any answer.
#[derive(Clone, Copy)]
pub struct Record {
    pub ticket: u64,
    pub answer: u64,
    pub index: u64,
}

// Record k of a wake list. kept: here, in `walk` and in `signals` a wake list is a slice, and its least length a
// clause. As an array of the first 96 cells it would need a law that the walk leaves the others; as a struct three
// clauses (whose list, what is told, how many).
pub fn put_record(wake: &mut [u64], k: usize, r: Record)
    requires { (k < wait_places) × (wake_length ≤ length wake.old) }
    ensures { wake.new ≡ put_record wake.old k r.ticket r.answer r.index }
{
    let at = 3 * k;
    wake[at] = r.ticket;
    wake[at + 1] = r.answer;
    wake[at + 2] = r.index;
}

// The wait at place p leaves the queue and is told in record k.
pub fn leave(t: &mut Cells, wake: &mut [u64], p: usize, k: usize, r: Record)
    requires { (p < wait_places) × (k < wait_places) × (wake_length ≤ length wake.old) }
    ensures { (t.new ≡ clear_wait t.old p)
        × (wake.new ≡ put_record wake.old k r.ticket r.answer r.index) }
{
    put_record(wake, k, r);
    tables::clear_wait(t, p);
}

// Every wait on this clock whose time is up ends with 5, lowest ticket first; how many.
pub fn end_due(t: &mut Cells, wake: &mut [u64], clock: u64, time: u64) -> usize
    requires { wake_length ≤ length wake.old }
    ensures { (walked result t.new wake.new ≡ end_cells wait_places clock time (walked 0 t.old wake.old))
        × (result ≤ wait_places) }
{
    for k in 0..tables::WAIT_PLACES {
        let Some(p) = next_due(t, clock, time) else {
            return k;
        };
        let ticket = tables::ticket_at(t, p);
        let r = Record {
            ticket,
            answer: u64::from(u32::from(Answer::TimedOut)),
            index: 0,
        };
        leave(t, wake, p, k, r);
    }
    tables::WAIT_PLACES
}
