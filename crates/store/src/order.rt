// Stores: the slots of a store's events by their ids, origin's place and then number, and the slots that are free.
ghost use Rattle.std.specs.Prelude.{◌≡◌, ◌-◌, ◌<◌, ◌≤◌, get_or};
ghost use Rattle.store.specs.Words.{event_at, id_of};
ghost use Rattle.store.specs.Orders.{cmp_of, find_from, events, meant, moved_up, moved_down, pushed, but_last, no_slots, free_slots, new_store, above, Put, Removed, Pruned};

use crate::event::{Event, OPERATION, SLOT, save, word};
use clock::id::{EventId, ReplicaIdx};
use clock::version_vector::{MEMBERS, Row};
use std::cmp::Ordering;

// The most slots of a store.
pub const SLOTS: usize = 256;

// The first `count` are meant.
// kept: an array and a count beside it, since plain types can be copied and there is no heap; that the count is at most 256 is no invariant of the
// type, since that would ask more of callers, who make one as they like.
#[derive(Clone, Copy, Debug)]
pub struct Slots {
    pub at: [u8; 256],
    pub count: usize,
}

impl Slots {
    // No slots.
    pub fn none() -> Slots
        ensures { result ≡ no_slots }
    {
        Slots {
            at: [0; 256],
            count: 0,
        }
    }

    // The first so many slots of a store; 256 at most.
    pub fn first(count: usize) -> Slots
        ensures { result ≡ free_slots count }
    {
        let count = count.min(SLOTS);
        let mut at = [0; 256];
        for k in 0..count {
            at[k] = k as u8;
        }
        Slots { at, count }
    }

    // The slots that are meant.
    pub fn meant(&self) -> &[u8]
        ensures { result.now ≡ meant self.now }
    {
        &self.at[..self.count.min(SLOTS)]
    }

    // Puts a slot in at a position; those from there on move up by one.
    fn put_at(&mut self, position: usize, slot: u8)
        requires { (position ≤ self.old.count) × (self.old.count < 256) }
        ensures { self.new ≡ moved_up self.old position slot }
    {
        self.at.copy_within(position..self.count, position + 1);
        self.at[position] = slot;
        self.count += 1;
    }

    // Takes the slot at a position out; those behind it move down by one.
    fn take_out(&mut self, position: usize) -> u8
        requires { (position < self.old.count) × (self.old.count ≤ 256) }
        ensures slot { result ≡ get_or self.old.at position 0 }
        ensures rest { self.new ≡ moved_down self.old position }
    {
        let slot = self.at[position];
        self.at.copy_within(position + 1..self.count, position);
        self.count -= 1;
        slot
    }

    // Puts a slot behind the others.
    fn push(&mut self, slot: u8)
        requires { self.old.count < 256 }
        ensures { self.new ≡ pushed self.old slot }
    {
        self.at[self.count] = slot;
        self.count += 1;
    }

    // Takes the last slot out.
    fn pop(&mut self) -> u8
        requires { (0 < self.old.count) × (self.old.count ≤ 256) }
        ensures slot { result ≡ get_or self.old.at (self.old.count - 1) 0 }
        ensures rest { self.new ≡ but_last self.old }
    {
        self.count -= 1;
        self.at[self.count]
    }
}

// The slots in use, in the order of their events' ids, and the free ones.
#[derive(Clone, Copy, Debug)]
pub struct Store {
    pub order: Slots,
    pub free: Slots,
}

// The id of the event in a slot.
fn id_at(words: &[u32], slot: u8) -> EventId
    ensures { result ≡ id_of (event_at words.now slot) }
{
    let a = SLOT * slot as usize;
    EventId {
        idx: ReplicaIdx(word(words, a) as usize),
        seq: word(words, a + 1),
    }
}

// How one id stands to another, by place and then by number: their derived order.
// kept: beside `cmp`, by which `find` takes 1.6 times the time where the id is there
fn compare(id: EventId, other: EventId) -> Ordering
    ensures { result ≡ cmp_of id.idx.0 id.seq other.idx.0 other.seq }
{
    let place = id.idx.0;
    if place < other.idx.0 {
        return Ordering::Less;
    }
    if other.idx.0 < place {
        return Ordering::Greater;
    }
    if id.seq < other.seq {
        return Ordering::Less;
    }
    if other.seq < id.seq {
        return Ordering::Greater;
    }
    Ordering::Equal
}

// Whether the number of the event in a slot is above its origin's entry.
fn is_above(words: &[u32], slot: u8, entries: Row) -> bool
    ensures { result ≡ above entries.entries (event_at words.now slot) }
{
    let id = id_at(words, slot);
    entries.get(id.idx) < id.seq
}

impl Store {
    // No slot in use, and the first so many free; 256 at most.
    pub fn new(slots: usize) -> Store
        ensures { result ≡ new_store slots }
    {
        Store {
            order: Slots::none(),
            free: Slots::first(slots),
        }
    }

    // Where an id stands in the order, or where it is to stand.
    pub fn find(&self, words: &[u32], id: EventId) -> Result<usize, usize>
        ensures { result ≡ find_from id.idx.0 id.seq 0 (events words.now self.now.order) }
    {
        let slots = self.order.meant();
        for (i, &slot) in slots.iter().enumerate() {
            match compare(id_at(words, slot), id) {
                Ordering::Less => {}
                Ordering::Equal => return Ok(i),
                Ordering::Greater => return Err(i),
            }
        }
        Err(slots.len())
    }

    // Puts an event into the store, in the place of one with the same id; not done where no slot is free, or where its origin's place or its length
    // is out of range.
    // kept: `insert`, `remove` and `prune` answer whether it was done: which number of document 01 it would be depends on the store (12 or 13), and the replica has
    // answered with it before it calls; for `remove` and `prune` it has none
    pub fn insert(&mut self, words: &mut [u32], event: Event) -> bool
        ensures { Put words.old words.new self.old self.new event result }
    {
        if MEMBERS <= event.origin.0 || OPERATION < event.len {
            return false;
        }
        match self.find(words, event.id()) {
            Ok(i) => save(words, self.order.at[i], event),
            Err(i) => {
                if self.free.count == 0 || SLOTS < self.free.count || SLOTS <= self.order.count {
                    return false;
                }
                let slot = self.free.pop();
                save(words, slot, event);
                self.order.put_at(i, slot);
            }
        }
        true
    }

    // Takes the event at a position out of the order, and frees its slot; not done where there is none.
    pub fn remove(&mut self, position: usize) -> bool
        ensures { Removed self.old self.new position result }
    {
        if SLOTS < self.order.count || self.order.count <= position || SLOTS <= self.free.count {
            return false;
        }
        let slot = self.order.take_out(position);
        self.free.push(slot);
        true
    }

    // Takes out every event whose number is at or below its origin's entry, and frees its slot.
    pub fn prune(&mut self, words: &[u32], entries: Row) -> bool
        ensures { Pruned words.now self.old self.new entries.entries result }
    {
        let old = self.order;
        if SLOTS < old.count || SLOTS - old.count < self.free.count {
            return false;
        }
        self.order.count = 0;
        for &slot in old.meant() {
            if is_above(words, slot, entries) {
                self.order.push(slot);
            } else {
                self.free.push(slot);
            }
        }
        true
    }
}
