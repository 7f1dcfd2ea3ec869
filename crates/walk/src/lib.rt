// The wake walk: the attempts of queued waits, lowest ticket first; those that are served leave and are told.
#![tactic(auto)]

ghost use Rattle.std.specs.Prelude.{◌≡◌, ◌≤◌, ◌<◌, length};
ghost use Rattle.model.specs.Sizes.{wait_places, wake_length};
ghost use Rattle.cells.specs.Attempt.{any_at, alert_of, all_at};
ghost use Rattle.cells.specs.Walk.{walked, settled, wake_cells};
ghost use Rattle.attempt.specs.Values.{tried_by};

use attempt::Served;
use ending::Record;
use kinds::Answer;
use tables::Cells;

// ---- the attempt of a queued wait

// The alert, after the list.
fn alert_of(t: &mut Cells, p: usize) -> Option<Served>
    requires { p < wait_places }
    ensures { tried_by result t.new ≡ alert_of t.old p }
{
    let w = tables::header_at(t, p);
    let n = tables::count_at(t, p);
    attempt::by_alert(t, w.terms.owner, w.terms.alert, n as u64)
}

// The attempt of a wait for any.
fn any_at(t: &mut Cells, p: usize) -> Option<Served>
    requires { p < wait_places }
    ensures { tried_by result t.new ≡ any_at t.old p }
{
    let w = tables::header_at(t, p);
    let list = tables::list_of(t, p);
    let Some(i) = attempt::look_any(t, w.terms.owner, list) else {
        return alert_of(t, p);
    };
    let h = list[i];
    Some(attempt::take_one(t, w.terms.owner, h, i as u64))
}

// A wait for all takes every object of its list; they are signaled.
fn all_at(t: &mut Cells, p: usize) -> Option<Served>
    requires { p < wait_places }
    ensures { tried_by result t.new ≡ all_at t.old p }
{
    let w = tables::header_at(t, p);
    let n = tables::count_at(t, p);
    let list = tables::copy_list(t, p);
    Some(attempt::take_list(t, w.terms.owner, &list[..n]))
}

// A wait that was served leaves the queue and is told, after those that have been; how many are told then.
#[tactic(auto, using(crate::proofs::Laws::settled_left))]
fn settle(
    t: &mut Cells,
    wake: &mut [u64],
    p: usize,
    told: usize,
    ticket: u64,
    tried: Option<Served>,
) -> usize
    requires { (p < wait_places) × (told < wait_places) × (wake_length ≤ length wake.old) }
    ensures { walked result t.new wake.new ≡ settled (tried_by tried t.old) p told ticket wake.old }
{
    let Some(a) = tried else {
        return told;
    };
    let r = Record {
        ticket,
        answer: u64::from(u32::from(Answer::acquired(a.abandoned))),
        index: a.index,
    };
    ending::leave(t, wake, p, told, r);
    told + 1
}

// ---- the walk

// After object h has changed: the queued waits once, lowest ticket first. Those whose list or alert names h are tried
// against the objects as they then stand. How many were served and told.
pub fn wake(t: &mut Cells, wake: &mut [u64], h: u64) -> usize
    requires { wake_length ≤ length wake.old }
    ensures { (walked result t.new wake.new ≡ wake_cells t.old h wake.old) × (result ≤ wait_places) }
{
    let mut last: u64 = 0;
    let mut k: usize = 0;
    'waits: for turn in 0..tables::WAIT_PLACES {
        let Some(p) = ending::next_wait(t, last) else {
            return k;
        };
        let w = tables::header_at(t, p);
        last = w.ticket;
        let named = tables::names_at(t, h, p);
        if !named {
            continue 'waits;
        }
        if w.terms.mode == 0 {
            let a = any_at(t, p);
            k = settle(t, wake, p, k, last, a);
            continue 'waits;
        }
        // kept: nested labelled loops are document 01's form of this look.
        let found = &*t;
        let list = tables::list_of(found, p);
        for x in list {
            let here = attempt::signaled(found, w.terms.owner, *x);
            if !here {
                let a = alert_of(t, p);
                k = settle(t, wake, p, k, last, a);
                continue 'waits;
            }
        }
        let a = all_at(t, p);
        k = settle(t, wake, p, k, last, a);
    }
    k
}
