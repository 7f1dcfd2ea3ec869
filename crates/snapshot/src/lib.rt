// The snapshot's writer: objects by handle, waits by ticket. Each function asks for room for its text: the public call
// has tested the buffer, and no snapshot of valid tables is longer (crates/model/proofs/SnapshotLength.antt).
#![tactic(auto)]

ghost use Rattle.std.specs.Prelude.{◌≡◌, cond, ◌<◌, length, eqb};
ghost use Rattle.model.specs.Sizes.{object_places, wait_places};
ghost use Rattle.cells.specs.Snapshot.{semaphore_text, mutex_text, event_text, fields_text, objects_text_below};
ghost use Rattle.cells.specs.Snapshot.{object_total, wait_total, list_text_below, wait_text_at, waits_text_from};
ghost use Rattle.cells.specs.Snapshot.{body_of, snapshot_of};
ghost use Rattle.decimal.specs.Text.{Room, Wrote};
ghost use Rattle.decimal.specs.Writing.{HasRoom, Appended};
ghost use Rattle.kinds.specs.Values.{cells_of};

use decimal::Writer;
use kinds::{Kind, Object};
use tables::Cells;

// ---- objects

// kept: a function for each kind, since its keys and their number differ.
fn put_semaphore(w: &mut Writer, h: u64, o: Object)
    requires { HasRoom w.old (semaphore_text h (cells_of o)) }
    ensures { Appended w.old w.new (semaphore_text h (cells_of o)) }
{
    w.line(b"handle=", h);
    w.text(b"kind=sem\n");
    w.line(b"count=", o.count);
    w.line(b"max=", o.attribute);
}

fn put_mutex(w: &mut Writer, h: u64, o: Object)
    requires { HasRoom w.old (mutex_text h (cells_of o)) }
    ensures { Appended w.old w.new (mutex_text h (cells_of o)) }
{
    w.line(b"handle=", h);
    w.text(b"kind=mutex\n");
    w.line(b"owner=", o.owner);
    w.line(b"count=", o.count);
    w.line(b"abandoned=", o.attribute);
}

fn put_event(w: &mut Writer, h: u64, o: Object)
    requires { HasRoom w.old (event_text h (cells_of o)) }
    ensures { Appended w.old w.new (event_text h (cells_of o)) }
{
    w.line(b"handle=", h);
    w.text(b"kind=event\n");
    w.line(b"signaled=", o.count);
    w.line(b"manual=", o.attribute);
}

// An empty place has no text.
#[tactic(auto, unfolding(cells::specs::Snapshot::fields_text))]
fn put_object(w: &mut Writer, h: u64, o: Object)
    requires { HasRoom w.old (fields_text h (cells_of o)) }
    ensures { Appended w.old w.new (fields_text h (cells_of o)) }
{
    match Kind::try_from(o.kind) {
        Ok(Kind::Semaphore) => put_semaphore(w, h, o),
        Ok(Kind::Mutex) => put_mutex(w, h, o),
        Ok(Kind::Event) => put_event(w, h, o),
        Err(_) => {}
    }
}

fn put_objects(w: &mut Writer, t: &Cells)
    requires { HasRoom w.old (objects_text_below t.now object_places) }
    ensures { Appended w.old w.new (objects_text_below t.now object_places) }
{
    for p in 0..tables::OBJECT_PLACES {
        put_object(w, (p + 1) as u64, tables::object_at(t, p));
    }
}

fn object_total(t: &Cells) -> u64
    ensures { result ≡ object_total t.now }
{
    (0..tables::OBJECT_PLACES)
        .filter(|&p| 0 < tables::object_at(t, p).kind)
        .count() as u64
}

// ---- waits

fn wait_total(t: &Cells) -> u64
    ensures { result ≡ wait_total t.now }
{
    (0..tables::WAIT_PLACES)
        .filter(|&p| 0 < tables::ticket_at(t, p))
        .count() as u64
}

// The first word for a cell of 0, else the second.
fn put_word(w: &mut Writer, cell: u64, first: &[u8], second: &[u8])
    requires { HasRoom w.old (cond (eqb cell 0) first.now second.now) }
    ensures { Appended w.old w.new (cond (eqb cell 0) first.now second.now) }
{
    if cell == 0 {
        w.text(first);
    } else {
        w.text(second);
    }
}

fn put_list(w: &mut Writer, list: &[u64])
    requires { HasRoom w.old (list_text_below list.now (length list.now)) }
    ensures { Appended w.old w.new (list_text_below list.now (length list.now)) }
{
    for h in list {
        w.line(b"obj=", *h);
    }
}

fn put_wait(w: &mut Writer, t: &Cells, p: usize)
    requires place { p < wait_places }
    requires room { HasRoom w.old (wait_text_at t.now p) }
    ensures { Appended w.old w.new (wait_text_at t.now p) }
{
    let header = tables::header_at(t, p);
    let terms = header.terms;
    let list = tables::list_of(t, p);
    w.line(b"wait=", header.ticket);
    put_word(w, terms.mode, b"mode=any\n", b"mode=all\n");
    w.line(b"owner=", terms.owner);
    put_word(w, terms.clock, b"clock=mono\n", b"clock=real\n");
    w.line(b"timeout=", terms.timeout);
    w.line(b"alert=", terms.alert);
    w.line(b"n=", list.len() as u64);
    put_list(w, list);
}

// The waits, lowest ticket first.
fn put_waits(w: &mut Writer, t: &Cells)
    requires { HasRoom w.old (waits_text_from wait_places t.now 0) }
    ensures { Appended w.old w.new (waits_text_from wait_places t.now 0) }
{
    let mut last = 0;
    for _ in 0..tables::WAIT_PLACES {
        let Some(p) = ending::next_wait(t, last) else {
            return;
        };
        put_wait(w, t, p);
        last = tables::ticket_at(t, p);
    }
}

// ---- all lines but the sum, then the sum

fn put_body(w: &mut Writer, t: &Cells)
    requires { HasRoom w.old (body_of t.now) }
    ensures { Appended w.old w.new (body_of t.now) }
{
    let next = tables::next_ticket(t);
    let objects = object_total(t);
    let waits = wait_total(t);
    w.line(b"next=", next);
    w.line(b"objects=", objects);
    put_objects(w, t);
    w.line(b"waits=", waits);
    put_waits(w, t);
}

// The whole text, from the buffer's front on; its length.
pub fn write(buf: &mut [u8], t: &Cells) -> usize
    requires { Room buf.old 0 (snapshot_of t.now) }
    ensures { Wrote buf.old 0 (snapshot_of t.now) result buf.new }
{
    let mut w = Writer::new(buf);
    put_body(&mut w, t);
    let sum = u64::from(byte_sum::byte_sum(w.written()));
    w.line(b"sum=", sum);
    w.at
}
