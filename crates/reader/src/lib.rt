// A snapshot's lines read back, and stored into tables as they are read.
#![tactic(auto)]

ghost use Rattle.std.specs.Prelude.{◌≤◌, length};
ghost use Rattle.model.specs.Sizes.{object_places, wait_places};
ghost use Rattle.model.specs.Calls.{a_semaphore, a_mutex, an_event};
ghost use Rattle.model.specs.Reading.{good, bad, times, number_line, read_values, read_object, read_wait};
ghost use Rattle.lines.specs.Outcome.{Told};
ghost use Rattle.reader.specs.Values.{read_kinded, ObjectTold, EntryTold, ObjectsTold, WaitTold, WaitsTold, ReadAll};

use kinds::{Kind, Object};
use lines::{Lines, NotDue};
use tables::{Cells, Header, Terms};

const HANDLES: u64 = tables::OBJECT_PLACES as u64;

const WAITS: u64 = tables::WAIT_PLACES as u64;

const LISTED: u64 = tables::MAX_LISTED as u64;

const MAX_32: u64 = u32::MAX as u64;

// ---- an object: its handle, its kind, and the values of each kind

// kept: a function for each kind, since its keys, their number and their ranges differ.

fn read_semaphore<'a>(lines: &mut Lines<'a>) -> Result<Object, NotDue<'a>>
    ensures { ObjectTold (read_values a_semaphore lines.old.rest.now) lines.new.rest.now result }
{
    let count = lines.number(b"count=", 0, MAX_32)?;
    let max = lines.number(b"max=", 0, MAX_32)?;
    Ok(Object {
        kind: u64::from(Kind::Semaphore),
        count,
        attribute: max,
        ..Object::EMPTY
    })
}

fn read_mutex<'a>(lines: &mut Lines<'a>) -> Result<Object, NotDue<'a>>
    ensures { ObjectTold (read_values a_mutex lines.old.rest.now) lines.new.rest.now result }
{
    let owner = lines.number(b"owner=", 0, MAX_32)?;
    let count = lines.number(b"count=", 0, MAX_32)?;
    let abandoned = lines.number(b"abandoned=", 0, 1)?;
    Ok(Object {
        kind: u64::from(Kind::Mutex),
        count,
        owner,
        attribute: abandoned,
    })
}

fn read_event<'a>(lines: &mut Lines<'a>) -> Result<Object, NotDue<'a>>
    ensures { ObjectTold (read_values an_event lines.old.rest.now) lines.new.rest.now result }
{
    let signaled = lines.number(b"signaled=", 0, 1)?;
    let manual = lines.number(b"manual=", 0, 1)?;
    Ok(Object {
        kind: u64::from(Kind::Event),
        count: signaled,
        attribute: manual,
        ..Object::EMPTY
    })
}

// A kind, and its values.
fn read_kinded<'a>(lines: &mut Lines<'a>) -> Result<Object, NotDue<'a>>
    ensures { ObjectTold (read_kinded lines.old.rest.now) lines.new.rest.now result }
{
    if lines.skip(b"kind=sem\n") {
        read_semaphore(lines)
    } else if lines.skip(b"kind=mutex\n") {
        read_mutex(lines)
    } else if lines.skip(b"kind=event\n") {
        read_event(lines)
    } else {
        Err(lines.not_due())
    }
}

fn read_object<'a>(lines: &mut Lines<'a>) -> Result<(u64, Object), NotDue<'a>>
    ensures { EntryTold (read_object lines.old.rest.now) lines.new.rest.now result }
{
    let handle = lines.number(b"handle=", 1, HANDLES)?;
    let object = read_kinded(lines)?;
    Ok((handle, object))
}

// As many objects as counted, stored as they are read; whether their handles rise.
pub fn read_objects<'a>(lines: &mut Lines<'a>, n: u64, t: &mut Cells) -> Result<bool, NotDue<'a>>
    ensures { ObjectsTold (times n read_object lines.old.rest.now) t.old t.new lines.new.rest.now result }
{
    let mut last = 0;
    let mut rising = true;
    for _ in 0..n {
        let (handle, object) = read_object(lines)?;
        tables::store(t, handle, object);
        rising &= last < handle;
        last = handle;
    }
    Ok(rising)
}

// ---- a wait: its header, its list into a lent one

// As many handles as the lent list has room for.
pub fn read_list<'a>(lines: &mut Lines<'a>, list: &mut [u64]) -> Result<(), NotDue<'a>>
    ensures { Told (λ _. list.new) (times (length list.old) (number_line "obj=" 1 object_places) lines.old.rest.now)
        lines.new.rest.now result }
{
    for handle in list.iter_mut() {
        *handle = lines.number(b"obj=", 1, HANDLES)?;
    }
    Ok(())
}

// The front of the list is the wait's.
pub fn read_wait<'a>(
    lines: &mut Lines<'a>,
    list: &mut [u64; tables::MAX_LISTED],
) -> Result<Header, NotDue<'a>>
    ensures { WaitTold (read_wait lines.old.rest.now) list.new lines.new.rest.now result }
{
    let ticket = lines.number(b"wait=", 1, u64::MAX)?;
    let mode = u64::from(lines.either(b"mode=any\n", b"mode=all\n")?);
    let owner = lines.number(b"owner=", 0, MAX_32)?;
    let clock = u64::from(lines.either(b"clock=mono\n", b"clock=real\n")?);
    let timeout = lines.number(b"timeout=", 0, u64::MAX)?;
    let alert = lines.number(b"alert=", 0, HANDLES)?;
    let listed = lines.number(b"n=", 0, LISTED)?;
    let named = &mut list[..listed as usize];
    read_list(lines, named)?;
    Ok(Header {
        ticket,
        terms: Terms {
            mode,
            owner,
            clock,
            timeout,
            alert,
        },
        listed,
    })
}

// As many waits as counted, at the lowest places in their order; whether their tickets rise.
pub fn read_waits<'a>(lines: &mut Lines<'a>, n: usize, t: &mut Cells) -> Result<bool, NotDue<'a>>
    requires { n ≤ wait_places }
    ensures { WaitsTold (times n read_wait lines.old.rest.now) t.old t.new lines.new.rest.now result }
{
    let mut last = 0;
    let mut rising = true;
    for p in 0..n {
        let mut list = [0; tables::MAX_LISTED];
        let header = read_wait(lines, &mut list)?;
        tables::put_header(t, p, header);
        tables::put_list(t, p, &list[..header.listed as usize]);
        rising &= last < header.ticket;
        last = header.ticket;
    }
    Ok(rising)
}

// ---- the whole text, into tables of zeros

// Whether all is in order: handles and tickets rise, the sum is right, no bytes are left.
pub fn read_snapshot<'a>(text: &'a [u8], t: &mut Cells) -> Result<bool, NotDue<'a>>
    ensures { ReadAll text.now t.old t.new result }
{
    let mut lines = Lines { rest: text };
    let next = lines.number(b"next=", 1, u64::MAX)?;
    let objects = lines.number(b"objects=", 0, HANDLES)?;
    tables::put_next(t, next);
    let handles_rise = read_objects(&mut lines, objects, t)?;
    let waits = lines.number(b"waits=", 0, WAITS)?;
    let tickets_rise = read_waits(&mut lines, waits as usize, t)?;
    let body = &text[..text.len() - lines.rest.len()];
    let sum = lines.number(b"sum=", 0, MAX_32)?;
    let right = sum == u64::from(byte_sum::byte_sum(body));
    Ok(handles_rise & tickets_rise & right & lines.rest.is_empty())
}
