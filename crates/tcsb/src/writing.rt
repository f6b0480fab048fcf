// What the replica writes: its events, its since, and batches, always with all members in our own order.
ghost use Rattle.std.specs.Prelude.{◌≡◌, ℕ, ◌<◌, ◌≤◌, List, [], length, leb, ltb};
ghost use Rattle.store.specs.declared.event.Event.{Event};
ghost use Rattle.store.specs.Orders.{pushed};
ghost use Rattle.clock.specs.Matrix.{row_of};
ghost use Rattle.telegram.specs.Reading.{Whole};
ghost use Rattle.telegram.specs.Writing.{body_spelt, exception_spelt, measured};
ghost use Rattle.lists.specs.Lists.{at};
ghost use Rattle.tcsb.specs.Replica.{exception_of, sent_event, send_of, since_of, pull_of, flush_of};
ghost use Rattle.tcsb.specs.Tcsb.{view, has_words, Writes, WritesOnly, WritesIf};
ghost use Rattle.tcsb.specs.Writing.{event_body, body_spelt_at, exception_spelt_at, head_of, Measures, PutsItem, ItemsWidth, PutsItems, WritesBatch, wanted_by, Wants, ReadsIds, Asks, DeliversAll};

use crate::batch::Ids;
use crate::delivery::first_ready;
use crate::internalizer::{Translation, operation_of};
use crate::receive::{new_in, put, room_for};
use crate::tcsb::{INBOX, OUTBOX, Tcsb, WAITING, has_words};
use clock::id::{EventId, ReplicaIdx};
use clock::version_vector::Row;
use refusal::Refusal;
use store::event::{Event, OPERATION, load};
use store::order::{SLOTS, Slots};
use telegram::batch::write_batch_head;
use telegram::body::{Body, Place, body_width, write_body};
use telegram::event::write_event;
use telegram::field::Part;
use telegram::head::Head;
use telegram::since::{
    Exception, Since, exception_width, read_exception, read_since, write_exception,
    write_since_head,
};

// An event as a body; its operation is a part of the event's own bytes.
fn body_of(event: &Event) -> Body
    ensures { result ≡ event_body event.now }
{
    Body {
        place: Place(event.origin.0),
        number: event.number,
        entries: event.version.entries,
        operation: Part {
            start: 0,
            len: event.len,
        },
    }
}

// The id of an event as an exception.
fn exception_of(event: &Event) -> Exception
    ensures { result ≡ exception_of event.now }
{
    Exception {
        place: Place(event.origin.0),
        number: event.number,
    }
}

// What a stored event is written as: a body of a batch, or an exception of a since.
trait Written {
    // Its bytes behind a list of so many names.
    ghost bytes: { ℕ → Event → List ℕ };

    // How it is spelt there, or why it can't be.
    ghost spelt: { ℕ → Event → Whole (List ℕ) };

    // How many bytes the event takes.
    fn width(event: &Event, names: usize) -> Result<usize, Refusal>
        ensures measures { Measures bytes event.now names result }
        ensures told { result ≡ measured (spelt names event.now) };

    // Writes the event where it fits; the answer is the place behind it.
    fn put(out: &mut [u8], at: usize, event: &Event, names: usize) -> usize
        ensures { PutsItem bytes out.old out.new at event.now names result };
}

impl Written for Body {
    ghost bytes = { body_spelt_at };

    ghost spelt = { λ n e. body_spelt n e.operation (event_body e) };

    fn width(event: &Event, names: usize) -> Result<usize, Refusal> {
        body_width(names, &event.operation, &body_of(event))
    }

    fn put(out: &mut [u8], at: usize, event: &Event, names: usize) -> usize {
        write_body(out, at, names, &event.operation, &body_of(event)).unwrap_or(at)
    }
}

impl Written for Exception {
    ghost bytes = { exception_spelt_at };

    ghost spelt = { λ n e. exception_spelt n (exception_of e) };

    fn width(event: &Event, names: usize) -> Result<usize, Refusal> {
        exception_width(names, exception_of(event))
    }

    fn put(out: &mut [u8], at: usize, event: &Event, names: usize) -> usize {
        write_exception(out, at, names, exception_of(event)).unwrap_or(at)
    }
}

// How many bytes the events of the slots take.
// kept: slots are handed over as they are, here and in `wanted`: behind a reference the proof doesn't see that their array has 256 places, which bounds the
// sum here and the pushes there; tried, and the proof did not close. `put_items` takes them as `items_width` does
fn items_width<I: Written>(words: &[u32], slots: Slots, names: usize) -> Result<usize, Refusal>
    ensures { ItemsWidth I.bytes words.now slots names result }
{
    let mut sum = 0;
    for slot in slots.meant() {
        sum += I::width(&load(words, *slot), names)?;
    }
    Ok(sum)
}

// Writes the events of the slots where they fit; the answer is the place behind them.
fn put_items<I: Written>(
    out: &mut [u8],
    at: usize,
    words: &[u32],
    slots: Slots,
    names: usize,
) -> usize
    ensures { PutsItems I.bytes out.old out.new at words.now slots names result }
{
    let mut next = at;
    for slot in slots.meant() {
        next = I::put(out, next, &load(words, *slot), names);
    }
    next
}

// A slot behind the others.
// kept: beside the store's own `push`, which asks for room and so is not public: no public call asks anything of its caller
fn push(slots: &mut Slots, slot: u8)
    ensures { slots.old.count < 256 → slots.new ≡ pushed slots.old slot }
{
    if slots.count < SLOTS {
        slots.at[slots.count] = slot;
        slots.count += 1;
    }
}

// The exceptions of a since as ids at our places.
fn read_ids(s: &[u8], since: &Since, row: &Translation) -> Ids
    requires { since.now.count ≤ 64 }
    ensures { ReadsIds s.now since.now.exceptions since.now.head.names.count since.now.count row.now result }
{
    let mut ids = Ids::none();
    let mut next = since.exceptions;
    for _ in 0..since.count {
        let Ok(exception) = read_exception(s, next, since.head.names.count) else {
            return ids;
        };
        ids.push(EventId {
            idx: row.our_place(exception.value.place),
            seq: exception.value.number,
        });
        next = exception.next;
    }
    ids
}

// Whether a number is above the requested one.
fn is_above(number: u32, requested: u32) -> bool
    ensures { result ≡ ltb requested number }
{
    requested < number
}

// An event that is not the requester's, above the requested entry and not excepted.
fn is_wanted(event: &Event, requester: ReplicaIdx, requested: Row, ids: &Ids) -> bool
    requires { ids.now.count ≤ 256 }
    ensures { result ≡ wanted_by requester.0 requested.entries ids.now event.now }
{
    event.origin != requester
        && is_above(event.number, requested.get(event.origin))
        && !ids.has(event.id())
}

// The slots of the events that a requester wants.
fn wanted(order: Slots, words: &[u32], requester: ReplicaIdx, requested: Row, ids: &Ids) -> Slots
    requires { ids.now.count ≤ 256 }
    ensures { Wants words.now order requester.0 requested.entries ids.now result }
{
    let mut slots = Slots::none();
    for slot in order.meant() {
        if is_wanted(&load(words, *slot), requester, requested, ids) {
            push(&mut slots, *slot);
        }
    }
    slots
}

impl Tcsb {
    // What our batches and sinces begin with: all members in our own order, our place, our row.
    fn head(&self) -> Head
        ensures { result ≡ head_of self.now }
    {
        let own = self.matrix.origin;
        let entries = self.matrix.row(own).entries;
        Head {
            names: self.names,
            sender: Place(own.0),
            entries,
        }
    }

    // Writes a batch of the events that the slots hold.
    fn write_batch(
        &self,
        list: &[u8],
        words: &[u32],
        slots: &Slots,
        out: &mut [u8],
    ) -> Result<usize, Refusal>
        ensures { WritesBatch list.now words.now slots.now out.old out.new self.now result }
    {
        let head = self.head();
        let behind = items_width::<Body>(words, *slots, head.names.count)?;
        let at = write_batch_head(out, list, &head, slots.count, behind)?;
        Ok(put_items::<Body>(out, at, words, *slots, head.names.count))
    }

    // The event that we send next with an operation.
    fn next_event(&self, operation: &[u8]) -> Event
        requires { at (row_of self.now.matrix.rows self.now.matrix.origin.0) self.now.matrix.origin.0 < 4294967295 }
        ensures { result ≡ sent_event (view self.now [] [] []) operation.now }
    {
        let own = self.matrix.origin;
        let row = self.matrix.row(own);
        let number = row.get(own) + 1;
        let len = operation.len();
        Event {
            origin: own,
            number,
            version: row.set(own, number),
            len,
            operation: operation_of(operation, Part { start: 0, len }),
        }
    }

    // Sends an operation: raises our entry by one, keeps the event in the outbox, writes its telegram. Refused with 4, 14, 13, 15. The answer is
    // how many bytes were written.
    pub fn send(
        &mut self,
        list: &[u8],
        outbox: &mut [u32],
        operation: &[u8],
        out: &mut [u8],
    ) -> Result<usize, Refusal>
        ensures { (p : List ℕ) → Writes list.now p p outbox.old outbox.new out.old out.new (leb 6912 (length outbox.old)) self.old self.new result (λ st. send_of st operation.now) }
    {
        if outbox.len() < OUTBOX || OPERATION < operation.len() {
            return Err(Refusal::OutOfRange);
        }
        let own = self.matrix.origin;
        if self.matrix.row(own).get(own) == u32::MAX {
            return Err(Refusal::LastNumber);
        }
        let event = self.next_event(operation);
        room_for(
            0,
            0,
            self.outbox.order.count,
            new_in(&self.outbox, outbox, event.id()),
        )?;
        let end = write_event(out, list, &self.names, operation, &body_of(&event))?;
        put(&mut self.outbox, outbox, event);
        self.matrix.put_row(own, event.version);
        Ok(end)
    }

    // Writes our since: our row, and the waiting ids as exceptions by origin place, then number. The answer is how many bytes were written.
    pub fn since(&self, list: &[u8], inbox: &[u32], out: &mut [u8]) -> Result<usize, Refusal>
        ensures { (q : List ℕ) → WritesOnly list.now inbox.now q out.old out.new (leb 1728 (length inbox.now)) self.now result since_of }
    {
        if inbox.len() < INBOX {
            return Err(Refusal::OutOfRange);
        }
        let head = self.head();
        let order = self.inbox.order;
        let behind = items_width::<Exception>(inbox, order, head.names.count)?;
        let at = write_since_head(out, list, &head, order.count, behind)?;
        Ok(put_items::<Exception>(out, at, inbox, order, head.names.count))
    }

    // The batch that answers a since that was read, through its sender's row.
    fn answer(
        &mut self,
        list: &[u8],
        outbox: &[u32],
        s: &[u8],
        since: &Since,
        row: Translation,
        out: &mut [u8],
    ) -> Result<usize, Refusal>
        requires { since.now.count ≤ 64 }
        ensures { (p : List ℕ) → WritesIf (Asks list.now p outbox.now self.old s.now since.now row) list.now p p outbox.now outbox.now out.old out.new self.old self.new result (λ st. pull_of st s.now) }
    {
        let requester = row.our_place(since.head.sender);
        let requested = row.our_row(&since.head.entries);
        let ids = read_ids(s, since, &row);
        let slots = wanted(self.outbox.order, outbox, requester, requested, &ids);
        let end = self.write_batch(list, outbox, &slots, out)?;
        self.extend(requester, row);
        Ok(end)
    }

    // Answers a since: for each origin but the requester's, outbox events above the requested entry and not excepted, by place, then number,
    // with our row. The answer is how many bytes were written.
    pub fn pull(
        &mut self,
        list: &[u8],
        outbox: &[u32],
        s: &[u8],
        out: &mut [u8],
    ) -> Result<usize, Refusal>
        ensures { (p : List ℕ) → Writes list.now p p outbox.now outbox.now out.old out.new (leb 6912 (length outbox.now)) self.old self.new result (λ st. pull_of st s.now) }
    {
        if outbox.len() < OUTBOX {
            return Err(Refusal::OutOfRange);
        }
        let since = read_since(s)?;
        let row = self.admit(list, s, &since.head.names, since.head.sender)?;
        self.answer(list, outbox, s, &since, row, out)
    }

    // Next until none is ready; the slots of what it delivered, in order.
    // kept: not by `next_causally_ready`, which answers the event; here the slot is wanted, and the words were tested before
    fn deliver_all(&mut self, inbox: &[u32]) -> Slots
        ensures { DeliversAll inbox.now self.old self.new result }
    {
        let mut slots = Slots::none();
        for _ in 0..WAITING {
            let row = self.matrix.row(self.matrix.origin);
            let Some(position) = first_ready(&self.inbox.order, inbox, row, self.matrix.members)
            else {
                return slots;
            };
            if position < SLOTS {
                push(&mut slots, self.inbox.order.at[position]);
                let _ = self.deliver_at(inbox, position);
            }
        }
        slots
    }

    // Next until none is ready, then one frontier call; writes a batch of the delivered events in order with our row after them. The answer is
    // how many bytes were written; a flush that is refused has delivered nothing.
    pub fn flush(
        &mut self,
        list: &[u8],
        inbox: &[u32],
        outbox: &[u32],
        out: &mut [u8],
    ) -> Result<usize, Refusal>
        ensures { Writes list.now inbox.now inbox.now outbox.now outbox.now out.old out.new (has_words (length inbox.now) (length outbox.now)) self.old self.new result flush_of }
    {
        if !has_words(inbox.len(), outbox.len()) {
            return Err(Refusal::OutOfRange);
        }
        let mut flushed = *self;
        let slots = flushed.deliver_all(inbox);
        let _ = flushed.is_stable(outbox);
        let end = flushed.write_batch(list, inbox, &slots, out)?;
        *self = flushed;
        Ok(end)
    }
}
