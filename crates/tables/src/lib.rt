// The cells of the lent tables: objects and waits, read, written and searched. Only this crate knows where a cell
// stands.
#![tactic(auto)]

ghost use Rattle.std.specs.Prelude.{◌≡◌, ◌+◌, ◌≤◌, ◌<◌, length, take};
ghost use Rattle.model.specs.Sizes.{object_places, wait_places, max_listed, word64};
ghost use Rattle.model.specs.Layout.{wait_size, table_length, in_wait};
ghost use Rattle.cells.specs.Objects.{fields_at, put_fields, is_handle, named, store};
ghost use Rattle.cells.specs.Waits.{next_ticket, put_next, ticket_at, mode_at, owner_at, clock_at, timeout_at};
ghost use Rattle.cells.specs.Waits.{count_at, alert_at, list_of, names_of, has, names_at, clear_wait};
ghost use Rattle.cells.specs.Calls.{empty_object, ticket_place, made_cells, put_header, put_list, queue_cells};
ghost use Rattle.cells.specs.Fold.{or_below, cell_from};
ghost use Rattle.cells.specs.Validity.{unused_zero, valid_free};
ghost use Rattle.kinds.specs.Values.{cells_of};
ghost use Rattle.tables.specs.Found.{Found};

use kinds::Object;

pub const OBJECT_PLACES: usize = 512;

pub const WAIT_PLACES: usize = 32;

pub const MAX_LISTED: usize = 64;

pub const TABLE_LENGTH: usize = WAITS_BASE + WAIT_SIZE * WAIT_PLACES;

// The lent tables: their length is their type's.
pub type Cells = [u64; TABLE_LENGTH];

const OBJECT_SIZE: usize = 4;

const HEADER_SIZE: usize = 7;

const WAIT_SIZE: usize = HEADER_SIZE + MAX_LISTED;

const WAITS_BASE: usize = 1 + OBJECT_SIZE * OBJECT_PLACES;

// What a wait asks for, as its cells hold it. kept: mode and clock are numbers, since a damaged cell can hold any; what
// asks for `mode == 0` is equal to a definition of cells that takes any number.
#[derive(Clone, Copy)]
pub struct Terms {
    // 0 for any, 1 for all
    pub mode: u64,
    pub owner: u64,
    // 0 monotonic, 1 real-time
    pub clock: u64,
    pub timeout: u64,
    // a handle, or 0 for none
    pub alert: u64,
}

// A wait's cells before its list.
#[derive(Clone, Copy)]
pub struct Header {
    // 0 at an empty place
    pub ticket: u64,
    pub terms: Terms,
    // how many handles are listed
    pub listed: u64,
}

// ---- objects, by place and by handle

pub fn object_at(t: &Cells, p: usize) -> Object
    requires { p < object_places }
    ensures { cells_of result ≡ fields_at t.now p }
{
    let at = 1 + OBJECT_SIZE * p;
    Object {
        kind: t[at],
        count: t[at + 1],
        owner: t[at + 2],
        attribute: t[at + 3],
    }
}

pub fn put_object(t: &mut Cells, p: usize, o: Object)
    requires { p < object_places }
    ensures { t.new ≡ put_fields t.old p (cells_of o) }
{
    let at = 1 + OBJECT_SIZE * p;
    t[at] = o.kind;
    t[at + 1] = o.count;
    t[at + 2] = o.owner;
    t[at + 3] = o.attribute;
}

// kept: `h - 1` at the two places below; a function to an `Option` of a place would be longer than both.
fn is_handle(h: u64) -> bool
    ensures { result ≡ is_handle h }
{
    (0 < h) & (h <= (OBJECT_PLACES as u64))
}

// The object that a handle names; a number that is no handle names an empty place.
pub fn named(t: &Cells, h: u64) -> Object
    ensures { cells_of result ≡ named t.now h }
{
    let handle = is_handle(h);
    if handle {
        return object_at(t, (h - 1) as usize);
    }
    Object::EMPTY
}

// Nothing is stored where the number is no handle.
pub fn store(t: &mut Cells, h: u64, o: Object)
    ensures { t.new ≡ store t.old h (cells_of o) }
{
    let handle = is_handle(h);
    if handle {
        put_object(t, (h - 1) as usize, o);
    }
}

// The lowest empty object place.
pub fn empty_object(t: &Cells) -> Option<usize>
    ensures { Found result (empty_object t.now) object_places }
{
    for p in 0..OBJECT_PLACES {
        let o = object_at(t, p);
        if o.kind == 0 {
            return Some(p);
        }
    }
    None
}

// ---- waits, by place

pub fn next_ticket(t: &Cells) -> u64
    ensures { result ≡ next_ticket t.now }
{
    t[0]
}

pub fn put_next(t: &mut Cells, next: u64)
    ensures { t.new ≡ put_next t.old next }
{
    t[0] = next;
}

// kept: a place is a number, and `p < wait_places` a clause. With a struct for it every loop over the places would wrap
// its number, as `ticket_at(t, Place { p })`, and every contract take it out again.

// Cell j of a wait place.
pub fn wait_cell(t: &Cells, p: usize, j: usize) -> u64
    requires { (p < wait_places) × (j < wait_size) }
    ensures { result ≡ in_wait t.now p j }
{
    let at = WAITS_BASE + WAIT_SIZE * p + j;
    t[at]
}

pub fn ticket_at(t: &Cells, p: usize) -> u64
    requires { p < wait_places }
    ensures { result ≡ ticket_at t.now p }
{
    wait_cell(t, p, 0)
}

pub fn header_at(t: &Cells, p: usize) -> Header
    requires { p < wait_places }
    ensures ticket { result.ticket ≡ ticket_at t.now p }
    ensures mode { result.terms.mode ≡ mode_at t.now p }
    ensures owner { result.terms.owner ≡ owner_at t.now p }
    ensures clock { result.terms.clock ≡ clock_at t.now p }
    ensures timeout { result.terms.timeout ≡ timeout_at t.now p }
    ensures listed { result.listed ≡ in_wait t.now p 5 }
    ensures alert { result.terms.alert ≡ alert_at t.now p }
{
    let at = WAITS_BASE + WAIT_SIZE * p;
    Header {
        ticket: t[at],
        terms: Terms {
            mode: t[at + 1],
            owner: t[at + 2],
            clock: t[at + 3],
            timeout: t[at + 4],
            alert: t[at + 6],
        },
        listed: t[at + 5],
    }
}

// The number of listed handles; a number past the list counts none.
pub fn count_at(t: &Cells, p: usize) -> usize
    requires { p < wait_places }
    ensures { result ≡ count_at t.now p }
{
    let n = wait_cell(t, p, 5);
    if n <= (MAX_LISTED as u64) {
        return n as usize;
    }
    0
}

// A wait's list, as a part of the tables.
pub fn list_of(t: &Cells, p: usize) -> &[u64]
    requires { p < wait_places }
    ensures { result.now ≡ list_of t.now p }
{
    let n = count_at(t, p);
    let from = WAITS_BASE + WAIT_SIZE * p + HEADER_SIZE;
    let end = from + n;
    &t[from..end]
}

// A copy of a wait's list, which stays as it is when the tables change.
pub fn copy_list(t: &Cells, p: usize) -> [u64; MAX_LISTED]
    requires { p < wait_places }
    ensures { (length result ≡ max_listed) × (take (count_at t.now p) result ≡ list_of t.now p) }
{
    let mut copy = [0; MAX_LISTED];
    let list = list_of(t, p);
    copy[..list.len()].copy_from_slice(list);
    copy
}

// All that a wait names: the alert, then the list.
pub fn names_of(t: &Cells, p: usize) -> &[u64]
    requires { p < wait_places }
    ensures { result.now ≡ names_of t.now p }
{
    let n = count_at(t, p);
    let from = WAITS_BASE + WAIT_SIZE * p + 6;
    let end = from + n + 1;
    &t[from..end]
}

pub fn has(list: &[u64], h: u64) -> bool
    ensures { result ≡ has list.now h }
{
    list.contains(&h)
}

pub fn names_at(t: &Cells, h: u64, p: usize) -> bool
    requires { p < wait_places }
    ensures { result ≡ names_at t.now h p }
{
    let names = names_of(t, p);
    has(names, h)
}

// The place of the wait with this ticket, for ticket 0 the lowest empty place.
pub fn ticket_place(t: &Cells, ticket: u64) -> Option<usize>
    ensures { Found result (ticket_place t.now ticket) wait_places }
{
    for p in 0..WAIT_PLACES {
        let here = ticket_at(t, p);
        if here == ticket {
            return Some(p);
        }
    }
    None
}

pub fn clear_wait(t: &mut Cells, p: usize)
    requires { p < wait_places }
    ensures { t.new ≡ clear_wait t.old p }
{
    let base = WAITS_BASE + WAIT_SIZE * p;
    t[base..base + WAIT_SIZE].fill(0);
}

// ---- queuing

pub fn put_header(t: &mut Cells, p: usize, w: Header)
    requires { p < wait_places }
    ensures { t.new ≡ put_header t.old p w.ticket w.terms.mode w.terms.owner w.terms.clock w.terms.timeout w.listed
        w.terms.alert }
{
    let at = WAITS_BASE + WAIT_SIZE * p;
    t[at] = w.ticket;
    t[at + 1] = w.terms.mode;
    t[at + 2] = w.terms.owner;
    t[at + 3] = w.terms.clock;
    t[at + 4] = w.terms.timeout;
    t[at + 5] = w.listed;
    t[at + 6] = w.terms.alert;
}

// kept: the lent list is a slice, and its length a clause: a list of C has any length, and no Vec is had (no heap).
pub fn put_list(t: &mut Cells, p: usize, list: &[u64])
    requires { (p < wait_places) × (length list.now ≤ max_listed) }
    ensures { t.new ≡ put_list t.old p list.now }
{
    let base = WAITS_BASE + WAIT_SIZE * p + HEADER_SIZE;
    t[base..base + list.len()].copy_from_slice(list);
}

// A wait at empty place p, under the next ticket, which rises by one.
pub fn queue(t: &mut Cells, p: usize, terms: Terms, list: &[u64])
    requires { (p < wait_places) × (length list.now ≤ max_listed) × (next_ticket t.old + 1 < word64) }
    ensures { t.new ≡ queue_cells t.old p terms.mode list.now terms.owner terms.clock terms.alert terms.timeout }
{
    let ticket = next_ticket(t);
    let w = Header {
        ticket,
        terms,
        listed: list.len() as u64,
    };
    put_header(t, p, w);
    put_list(t, p, list);
    put_next(t, ticket + 1);
}

// ---- cells that must be zero

// The n cells from a on, or'ed.
fn bits_of(t: &[u64], a: usize, n: usize) -> u64
    requires { a + n ≤ length t.now }
    ensures { result ≡ or_below (cell_from t.now a) n }
{
    t[a..a + n].iter().fold(0, |x, cell| x | cell)
}

// A wait's list is zero from its end on.
pub fn unused_zero(t: &Cells, p: usize) -> bool
    requires { p < wait_places }
    ensures { result ≡ unused_zero t.now p (count_at t.now p) }
{
    let n = count_at(t, p);
    let from = WAITS_BASE + WAIT_SIZE * p + (HEADER_SIZE + n);
    bits_of(t, from, MAX_LISTED - n) == 0
}

// All cells of an empty wait place are zero.
pub fn free_zero(t: &Cells, p: usize) -> bool
    requires { p < wait_places }
    ensures { result ≡ valid_free t.now p }
{
    bits_of(t, WAITS_BASE + WAIT_SIZE * p, WAIT_SIZE) == 0
}

// ---- making

// Newly made tables: next ticket 1, all else zero.
pub fn make(t: &mut Cells)
    ensures { t.new ≡ made_cells t.old }
{
    t.fill(0);
    t[0] = 1;
}

// All cells of other tables.
pub fn copy(to: &mut Cells, from: &Cells)
    ensures { to.new ≡ from.now }
{
    *to = *from;
}

// ---- the sizes, tied to the numbers of the meaning

// kept: a function for each, since each ties one constant to one number; a general one would be given both.

pub fn object_places() -> usize
    ensures { result ≡ object_places }
{
    OBJECT_PLACES
}

pub fn wait_places() -> usize
    ensures { result ≡ wait_places }
{
    WAIT_PLACES
}

pub fn max_listed() -> usize
    ensures { result ≡ max_listed }
{
    MAX_LISTED
}

pub fn table_length() -> usize
    ensures { result ≡ table_length }
{
    TABLE_LENGTH
}
