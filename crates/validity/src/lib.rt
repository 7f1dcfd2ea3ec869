// The validity check (01: sound tables, else damaged): one pass over the objects, one over the waits.
#![tactic(auto)]

ghost use Rattle.std.specs.Prelude.{◌≡◌, true, ◌<◌};
ghost use Rattle.model.specs.Basics.{all_of};
ghost use Rattle.model.specs.Sizes.{object_places, wait_places};
ghost use Rattle.cells.specs.Fold.{all_below};
ghost use Rattle.cells.specs.Objects.{fields_at};
ghost use Rattle.cells.specs.Validity.{valid_fields, occupied_at, event_at, occupied_list, proper_handles, proper_list, proper_alert, alone_at, header_tests, names_tests, valid_place, valid_cells};
ghost use Rattle.kinds.specs.Values.{cells_of};

use kinds::{Event, Kind, Mutex, Object, Semaphore};
pub use sound::Sound;
use tables::Cells;

mod sound;

// Flags for the numbers below it, among them every handle.
const MARKS: usize = 2 * tables::OBJECT_PLACES;

// ---- objects

// Each kind answers for its numbers; the cells that an object has no use for are 0, in an empty place all.
#[tactic(auto, unfolding(cells::specs::Validity::valid_fields, model::specs::Basics::all_of))]
fn valid_object(o: Object) -> bool
    ensures { result ≡ valid_fields (cells_of o) }
{
    match Kind::try_from(o.kind) {
        Ok(Kind::Semaphore) => Semaphore::valid(o.count, o.attribute) & (o.owner == 0),
        Ok(Kind::Mutex) => Mutex::valid(o.owner, o.count, o.attribute),
        Ok(Kind::Event) => Event::valid(o.count, o.attribute) & (o.owner == 0),
        Err(_) => o == Object::EMPTY,
    }
}

fn valid_objects(t: &Cells) -> bool
    ensures { result ≡ all_below (λ p. valid_fields (fields_at t.now p)) object_places }
{
    let mut ok = true;
    for p in 0..tables::OBJECT_PLACES {
        ok &= valid_object(tables::object_at(t, p));
    }
    ok
}

// ---- what a wait names

pub fn occupied(t: &Cells, h: u64) -> bool
    ensures { result ≡ occupied_at t.now h }
{
    0 < tables::named(t, h).kind
}

pub fn is_event(t: &Cells, h: u64) -> bool
    ensures { result ≡ event_at t.now h }
{
    tables::named(t, h).is(Kind::Event)
}

// No alert, or an event.
pub fn proper_alert(t: &Cells, alert: u64) -> bool
    ensures { result ≡ proper_alert t.now alert }
{
    let event = is_event(t, alert);
    (alert == 0) | event
}

fn occupied_list(t: &Cells, list: &[u64]) -> bool
    ensures { result ≡ occupied_list t.now list.now }
{
    let mut ok = true;
    for &h in list {
        ok &= occupied(t, h);
    }
    ok
}

// The list's handles are occupied, and none of them is the alert or stands twice: one walk, with a flag for each number
// met. kept: the flags are numbers, as refine's laws `once_more` and `seen_more` take them. `mode` is for the contract.
fn occupied_once(t: &Cells, mode: u64, list: &[u64], alert: u64) -> bool
    requires { mode ≡ 0 → ⊥ }
    ensures { proper_alert t.now alert ≡ true → result ≡ proper_handles t.now mode list.now alert }
{
    let mut seen = [0u8; MARKS];
    let first = (alert % (MARKS as u64)) as usize;
    seen[first] = 1;
    for &h in list {
        if !occupied(t, h) {
            return false;
        }
        let flag = (h % (MARKS as u64)) as usize;
        if seen[flag] != 0 {
            return false;
        }
        seen[flag] = 1;
    }
    true
}

// A list for its mode, where the alert is a proper one: for any of no handles too (1/13), for all of one at least
// (house). kept: mode is a number, as `proper_list` of cells takes it
pub fn proper_list(t: &Cells, mode: u64, list: &[u64], alert: u64) -> bool
    ensures { proper_alert t.now alert ≡ true → result ≡ proper_list t.now mode list.now alert }
{
    if mode == 0 {
        return occupied_list(t, list);
    }
    if list.is_empty() {
        return false;
    }
    occupied_once(t, mode, list, alert)
}

// ---- waits

// No place before p has its ticket.
fn alone(t: &Cells, p: usize) -> bool
    requires { p < wait_places }
    ensures { result ≡ alone_at t.now p }
{
    let ticket = tables::ticket_at(t, p);
    let mut ok = true;
    for q in 0..p {
        ok &= tables::ticket_at(t, q) != ticket;
    }
    ok
}

// A wait's owner can come to own a mutex.
fn valid_header(t: &Cells, p: usize) -> bool
    requires { p < wait_places }
    ensures { result ≡ all_of (header_tests t.now p) }
{
    let w = tables::header_at(t, p);
    let next = tables::next_ticket(t);
    let alone = alone(t, p);
    (w.ticket < next)
        & alone
        & (w.terms.mode <= 1)
        & (0 < w.terms.owner)
        & (w.terms.owner <= Mutex::MAX_OWNER)
        & (w.terms.clock <= 1)
        & (w.listed <= (tables::MAX_LISTED as u64))
}

fn valid_names(t: &Cells, p: usize) -> bool
    requires { p < wait_places }
    ensures { result ≡ all_of (names_tests t.now p) }
{
    let terms = tables::header_at(t, p).terms;
    let list = tables::list_of(t, p);
    let alert = proper_alert(t, terms.alert);
    let unused = tables::unused_zero(t, p);
    let proper = proper_list(t, terms.mode, list, terms.alert);
    proper & unused & alert
}

fn valid_place(t: &Cells, p: usize) -> bool
    requires { p < wait_places }
    ensures { result ≡ valid_place t.now p }
{
    let ticket = tables::ticket_at(t, p);
    if ticket == 0 {
        return tables::free_zero(t, p);
    }
    let header = valid_header(t, p);
    let names = valid_names(t, p);
    header & names
}

fn valid_waits(t: &Cells) -> bool
    ensures { result ≡ all_below (valid_place t.now) wait_places }
{
    let mut ok = true;
    for p in 0..tables::WAIT_PLACES {
        ok &= valid_place(t, p);
    }
    ok
}

// The whole check, of any cells.
pub fn valid(t: &[u64]) -> bool
    ensures { result ≡ valid_cells t.now }
{
    let Some(t) = t.as_array() else {
        return false;
    };
    let next = tables::next_ticket(t);
    let objects = valid_objects(t);
    let waits = valid_waits(t);
    (0 < next) & objects & waits
}
