// Damaged tables: for each line of "Sound tables" in document 01 one cell that breaks it, or two where a second line
// would break as well. All calls but making are asked; each must answer 9 with zeros and leave every cell, of the wake
// list too.
use call_lines::memory::Cell::{Object, Wait};
use call_lines::memory::ObjectCell::{Attribute, Count, Kind, Owner};
use call_lines::memory::WaitCell::{Alert, Clock, Listed, Mode, Ticket, Timeout};
use call_lines::memory::{Cell, Cells, SPACE_LENGTH, TABLE_LENGTH, WaitCell, put, put_row};
use call_lines::told::Told;
use call_lines::verdict::{altered, rest};
use call_lines::waiting::{MONOTONIC, NEVER, Terms, all_on, any_on};
use call_lines::wakes;
use call_lines::wakes::Targets;
use call_lines::woken::{UNTOUCHED, WAKE_LENGTH, is_untouched};
use std::io;

// The object places of the sound tables below.
const SEMAPHORE: u16 = 0;

const MUTEX: u16 = 1;

const EVENT: u16 = 2;

const ABANDONED: u16 = 4;

const UNNAMED: u16 = 5;

const EMPTY: u16 = 6;

// Their wait places.
const ANY: u8 = 0;

const ALL: u8 = 1;

const SINGLE: u8 = 2;

const LONG: u8 = 3;

const AFTER_LONG: u8 = 4;

const FREE: u8 = 5;

const LAST: u8 = 31;

const LAST_LISTED: WaitCell = Listed(63);

const WORD32: u64 = 1 << 32;

// A semaphore, a mutex and an event of theirs, for the calls that wake.
const HANDLES: Targets = Targets {
    semaphore: 1,
    mutex: 2,
    event: 3,
    clock: MONOTONIC,
};

// ---- the sound tables

// Handles: 1 semaphore, 2 mutex, 3 auto event, 4 manual event, 5 abandoned mutex, 6 semaphore that no wait names.
fn put_objects(t: &mut Cells) {
    ntsync::init(t);
    ntsync::create_sem(t, 2, 3);
    ntsync::create_mutex(t, 5, 1);
    ntsync::create_event(t, 1, 0);
    ntsync::create_event(t, 0, 1);
    ntsync::create_mutex(t, 0, 0);
    ntsync::create_sem(t, 0, 1);
    put(t, Object(ABANDONED, Attribute), 1);
}

fn put_wait(t: &mut Cells, place: u8, row: &[u64]) {
    put_row(t, Wait(place, Ticket), row);
}

// A wait for any may name a handle twice, as its alert too. The list of 64 stands before a ticket that is a handle in
// use, so that a count of 65 breaks nothing but the limit.
fn sound() -> Cells {
    let mut t = [0; TABLE_LENGTH];
    put_objects(&mut t);
    put(&mut t, Cell::NextTicket, 9);
    put_wait(&mut t, ANY, &[5, 0, 9, 0, 100, 2, 4, 1, 4]);
    put_wait(&mut t, ALL, &[6, 1, 10, 1, NEVER, 2, 3, 1, 4]);
    put_wait(&mut t, SINGLE, &[7, 0, 11, 0, 0, 1, 0, 1]);
    put_wait(&mut t, LONG, &[8, 0, 12, 0, 0, 64, 0]);
    put_row(&mut t, Wait(LONG, Listed(0)), &[1; 64]);
    put_wait(&mut t, AFTER_LONG, &[1, 0, WORD32 - 1, 0, 0, 1, 0, 1]);
    t
}

// ---- all calls

fn ask_creates(rt: &impl Print, t: &mut [u64]) -> io::Result<()> {
    print!(rt; ": create {}", Told(ntsync::create_sem(t, 1, 1)))?;
    print!(rt; " {}", Told(ntsync::create_mutex(t, 0, 0)))?;
    print!(rt; " {}", Told(ntsync::create_event(t, 0, 0)))
}

fn ask_reads(rt: &impl Print, t: &[u64]) -> io::Result<()> {
    print!(rt; " read {}", Told(ntsync::read_sem(t, 1)))?;
    print!(rt; " {}", Told(ntsync::read_mutex(t, 2)))?;
    print!(rt; " {}", Told(ntsync::read_event(t, 3)))
}

fn ask_changes(rt: &impl Print, t: &mut [u64]) -> io::Result<()> {
    print!(rt; " reset {}", Told(ntsync::reset(t, 3)))?;
    print!(rt; " close {}", ntsync::close(t, 6))?;
    print!(rt; " cancel {}", ntsync::cancel(t, 7))
}

fn ask_waits(rt: &impl Print, t: &mut [u64]) -> io::Result<()> {
    print!(rt; " wait {}", Told(any_on(t, &[3], Terms::of(9))))?;
    print!(rt; " {}", Told(all_on(t, &[3], Terms::of(9))))
}

// Of any length: the right one is TABLE_LENGTH.
fn ask<const N: usize>(rt: &impl Print, label: &str, before: [u64; N]) -> io::Result<()> {
    let mut t = before;
    print!(rt; "{label}")?;
    ask_creates(rt, &mut t)?;
    ask_reads(rt, &t)?;
    ask_changes(rt, &mut t)?;
    ask_waits(rt, &mut t)?;
    let mut wake = [UNTOUCHED; WAKE_LENGTH];
    wakes::ask(rt, &mut t, &mut wake, HANDLES)?;
    let altered = altered(&t, &before);
    let rest = rest(is_untouched(&wake, 0));
    println!(rt; " {altered} {rest}")
}

// Sound tables but for one cell.
fn one_cell(rt: &impl Print, label: &str, at: Cell, value: u64) -> io::Result<()> {
    let mut t = sound();
    put(&mut t, at, value);
    ask(rt, label, t)
}

// ---- the lines of "Sound tables"

fn objects(rt: &impl Print) -> io::Result<()> {
    one_cell(rt, "object kind 4", Object(SEMAPHORE, Kind), 4)?;
    one_cell(rt, "object kind 0", Object(SEMAPHORE, Kind), 0)?;
    one_cell(rt, "empty place, count 1", Object(EMPTY, Count), 1)?;
    one_cell(rt, "empty place, owner 1", Object(EMPTY, Owner), 1)?;
    one_cell(rt, "empty place, attribute 1", Object(EMPTY, Attribute), 1)
}

fn semaphores_and_events(rt: &impl Print) -> io::Result<()> {
    one_cell(rt, "semaphore 4 of 3", Object(SEMAPHORE, Count), 4)?;
    one_cell(
        rt,
        "semaphore maximum 2^32",
        Object(SEMAPHORE, Attribute),
        WORD32,
    )?;
    one_cell(rt, "semaphore maximum 0", Object(UNNAMED, Attribute), 0)?;
    one_cell(rt, "semaphore owner 1", Object(SEMAPHORE, Owner), 1)?;
    one_cell(rt, "event signaled 2", Object(EVENT, Count), 2)?;
    one_cell(rt, "event manual 2", Object(EVENT, Attribute), 2)?;
    one_cell(rt, "event owner 1", Object(EVENT, Owner), 1)
}

fn mutexes(rt: &impl Print) -> io::Result<()> {
    one_cell(rt, "mutex owner 0 count 1", Object(MUTEX, Owner), 0)?;
    one_cell(rt, "mutex owner 5 count 0", Object(MUTEX, Count), 0)?;
    one_cell(rt, "mutex owner 2^32", Object(MUTEX, Owner), WORD32)?;
    one_cell(rt, "mutex count 2^32", Object(MUTEX, Count), WORD32)?;
    one_cell(
        rt,
        "mutex abandoned with owner",
        Object(MUTEX, Attribute),
        1,
    )?;
    one_cell(rt, "mutex abandoned 2", Object(ABANDONED, Attribute), 2)
}

// With no wait queued only the next ticket itself is wrong.
fn next_ticket(rt: &impl Print) -> io::Result<()> {
    let mut t = [0; TABLE_LENGTH];
    ntsync::init(&mut t);
    put(&mut t, Cell::NextTicket, 0);
    ask(rt, "next ticket 0, nothing queued", t)
}

fn tickets(rt: &impl Print) -> io::Result<()> {
    one_cell(rt, "next ticket 0", Cell::NextTicket, 0)?;
    one_cell(rt, "next ticket that of a wait", Cell::NextTicket, 8)?;
    one_cell(rt, "wait ticket the next", Wait(ANY, Ticket), 9)?;
    one_cell(rt, "wait ticket 2^64-1", Wait(ANY, Ticket), NEVER)?;
    one_cell(rt, "wait ticket twice", Wait(ALL, Ticket), 5)?;
    one_cell(rt, "wait ticket 0", Wait(ANY, Ticket), 0)
}

// With a list of zeros only the count itself can be wrong, and for any it is not.
fn empty_list(rt: &impl Print, mode: u64, label: &str) -> io::Result<()> {
    let mut t = sound();
    put(&mut t, Wait(SINGLE, Mode), mode);
    put(&mut t, Wait(SINGLE, WaitCell::Count), 0);
    put(&mut t, Wait(SINGLE, Listed(0)), 0);
    ask(rt, label, t)
}

fn headers(rt: &impl Print) -> io::Result<()> {
    one_cell(rt, "wait owner 0", Wait(ANY, WaitCell::Owner), 0)?;
    one_cell(rt, "wait owner 2^32", Wait(ANY, WaitCell::Owner), WORD32)?;
    one_cell(rt, "wait mode 2", Wait(ANY, Mode), 2)?;
    one_cell(rt, "wait clock 2", Wait(ANY, Clock), 2)?;
    one_cell(rt, "wait count 0", Wait(SINGLE, WaitCell::Count), 0)?;
    one_cell(rt, "wait count 65", Wait(LONG, WaitCell::Count), 65)?;
    one_cell(rt, "wait count 2^64-1", Wait(LONG, WaitCell::Count), NEVER)
}

fn lists(rt: &impl Print) -> io::Result<()> {
    one_cell(rt, "list handle 0", Wait(ANY, Listed(0)), 0)?;
    one_cell(rt, "list handle 513", Wait(ANY, Listed(0)), 513)?;
    one_cell(rt, "list handle 7, empty place", Wait(ANY, Listed(0)), 7)?;
    one_cell(rt, "list handle 2^32+1", Wait(ANY, Listed(0)), WORD32 + 1)?;
    one_cell(rt, "list handle 0, last of 64", Wait(LONG, LAST_LISTED), 0)?;
    one_cell(rt, "cell after the list 1", Wait(ANY, Listed(2)), 1)?;
    one_cell(rt, "last cell after the list 1", Wait(ANY, LAST_LISTED), 1)
}

fn free_places(rt: &impl Print) -> io::Result<()> {
    one_cell(rt, "empty wait place, mode 1", Wait(FREE, Mode), 1)?;
    one_cell(
        rt,
        "empty wait place, owner 1",
        Wait(FREE, WaitCell::Owner),
        1,
    )?;
    one_cell(rt, "empty wait place, timeout 1", Wait(FREE, Timeout), 1)?;
    one_cell(
        rt,
        "empty wait place, list end 1",
        Wait(FREE, LAST_LISTED),
        1,
    )?;
    one_cell(rt, "last cell of the tables 1", Wait(LAST, LAST_LISTED), 1)
}

fn names(rt: &impl Print) -> io::Result<()> {
    one_cell(rt, "alert a semaphore", Wait(ANY, Alert), 1)?;
    one_cell(rt, "alert a mutex", Wait(ANY, Alert), 2)?;
    one_cell(rt, "alert 513", Wait(ANY, Alert), 513)?;
    one_cell(rt, "alert 2^32+4", Wait(ANY, Alert), WORD32 + 4)?;
    one_cell(rt, "alert 7, empty place", Wait(ANY, Alert), 7)?;
    one_cell(rt, "wait for all, handle twice", Wait(ALL, Listed(1)), 1)?;
    one_cell(rt, "wait for all, alert in list", Wait(ALL, Listed(1)), 3)
}

pub fn cases(rt: &impl Print) -> io::Result<()> {
    println!(rt; "-- damaged tables")?;
    ask(rt, "no damage", sound())?;
    objects(rt)?;
    semaphores_and_events(rt)?;
    mutexes(rt)?;
    next_ticket(rt)?;
    tickets(rt)?;
    headers(rt)?;
    empty_list(rt, 1, "wait for all, count 0, list of zeros")?;
    empty_list(rt, 0, "no damage: wait for any, count 0, list of zeros")?;
    lists(rt)?;
    free_places(rt)?;
    names(rt)
}

// ---- another length

// The sound tables as far as they fit, and zeros behind them.
fn other_length<const N: usize>(rt: &impl Print, label: &str, zeros: [u64; N]) -> io::Result<()> {
    let mut t = zeros;
    put_row(&mut t, Cell::NextTicket, &sound());
    ask(rt, label, t)
}

// Sound tables but for their length.
pub fn lengths(rt: &impl Print) -> io::Result<()> {
    other_length(rt, "one cell short", [0; TABLE_LENGTH - 1])?;
    other_length(rt, "one cell long", [0; SPACE_LENGTH])?;
    other_length(rt, "no cells", [0; 0])?;
    other_length(rt, "right length again", [0; TABLE_LENGTH])
}
