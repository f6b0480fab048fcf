// Receive: what becomes of an event of another member.
ghost use Rattle.std.specs.Prelude.{◌≡◌, Ok, length};
ghost use Rattle.telegram.specs.Reading.{event};
ghost use Rattle.store.specs.Orders.{find_from, events};
ghost use Rattle.tcsb.specs.Replica.{misnumbered, duplicate_by, stale_by, verdict_by, receive_of};
ghost use Rattle.tcsb.specs.Tcsb.{has_words, with_known, Does, DoesIf};
ghost use Rattle.tcsb.specs.Receive.{new_to, room_of, Stored, Recorded, Takes};

use crate::internalizer::Translation;
use crate::tcsb::{KEPT, Tcsb, WAITING, has_words};
use clock::id::{EventId, ReplicaIdx};
use refusal::Refusal;
use store::event::Event;
use store::order::Store;
use telegram::body::Body;
use telegram::event as telegrams;
use telegram::list::MEMBERS;

// What becomes of an event that is received.
#[derive(Clone, Copy, Debug, PartialEq, Eq)]
pub enum Verdict {
    Taken,
    Duplicate,
    Stale,
}

// Event number 0, or not equal to its version's entry for its origin.
pub(crate) fn is_misnumbered(body: &Body) -> bool
    ensures { result ≡ misnumbered body.now }
{
    let entry = body.entries.get(body.place.0).copied().unwrap_or(0);
    body.number == 0 || body.number != entry
}

// 1 where a store has no event with an id, else 0.
pub(crate) fn new_in(store: &Store, words: &[u32], id: EventId) -> usize
    ensures { result ≡ new_to (find_from id.idx.0 id.seq 0 (events words.now store.now.order)) }
{
    usize::from(store.find(words, id).is_err())
}

// Whether so many new ids find room: 12 where more than 64 would wait, 13 where more than 256 would be in the outbox.
pub(crate) fn room_for(
    waiting: usize,
    more: usize,
    kept: usize,
    extra: usize,
) -> Result<(), Refusal>
    ensures { result ≡ room_of waiting more kept extra }
{
    if WAITING < waiting || WAITING - waiting < more {
        return Err(Refusal::InboxFull);
    }
    if KEPT < kept || KEPT - kept < extra {
        return Err(Refusal::OutboxFull);
    }
    Ok(())
}

// Puts an event into a store, in the place of one with the same id.
pub(crate) fn put(store: &mut Store, words: &mut [u32], event: Event)
    ensures { Stored words.old words.new store.old event store.new }
{
    let _ = store.insert(words, event);
}

// kept: `inbox` and `outbox` go side by side through the calls: they are lent slices, and a struct of the two would be made in each public call, whose
// arguments may not change
impl Tcsb {
    // Duplicate if the number is at most the origin row's own entry.
    fn is_duplicate(&self, event: &Event) -> bool
        ensures { result ≡ duplicate_by self.now.matrix.rows event.now }
    {
        event.number <= self.matrix.row(event.origin).get(event.origin)
    }

    // Stale if the frontier contains it or some version entry is below the frontier's.
    fn is_stale(&self, event: &Event) -> bool
        ensures { result ≡ stale_by self.now.matrix.members self.now.frontier.row.entries event.now }
    {
        let cut = self.frontier.row;
        event.number <= cut.get(event.origin) || !cut.at_most(event.version, self.matrix.members)
    }

    // Duplicate, else stale, else taken.
    pub(crate) fn judge(&self, event: &Event) -> Verdict
        ensures { result ≡ verdict_by self.now.matrix self.now.frontier event.now }
    {
        if self.is_duplicate(event) {
            Verdict::Duplicate
        } else if self.is_stale(event) {
            Verdict::Stale
        } else {
            Verdict::Taken
        }
    }

    // Into inbox and outbox, in the place of one with the same id.
    pub(crate) fn record(&mut self, inbox: &mut [u32], outbox: &mut [u32], event: Event)
        ensures { Recorded inbox.old inbox.new outbox.old outbox.new self.old event self.new }
    {
        put(&mut self.inbox, inbox, event);
        put(&mut self.outbox, outbox, event);
    }

    // Every accepted receive, batch or pull extends the sender's known row to the telegram's list.
    pub(crate) fn extend(&mut self, sender: ReplicaIdx, row: Translation)
        ensures { self.new ≡ with_known self.old sender.0 row }
    {
        if sender.0 < MEMBERS {
            self.known[sender.0] = row;
        }
    }

    // An event of another member that is numbered right: 12 or 13 where it is to be taken and finds no room.
    #[tactic(auto, using(crate::proofs::Taking::takes_duplicate, crate::proofs::Taking::takes_stale))]
    fn take(
        &mut self,
        inbox: &mut [u32],
        outbox: &mut [u32],
        event: Event,
    ) -> Result<Verdict, Refusal>
        ensures { Takes inbox.old inbox.new outbox.old outbox.new self.old event self.new result }
    {
        let verdict = self.judge(&event);
        if verdict == Verdict::Taken {
            let more = new_in(&self.inbox, inbox, event.id());
            let extra = new_in(&self.outbox, outbox, event.id());
            room_for(self.inbox.order.count, more, self.outbox.order.count, extra)?;
            self.record(inbox, outbox, event);
        }
        Ok(verdict)
    }

    // An event telegram that was read: 7, 8, 10, 11, 12, 13.
    fn receive_body(
        &mut self,
        list: &[u8],
        inbox: &mut [u32],
        outbox: &mut [u32],
        s: &[u8],
        read: &telegrams::Event,
    ) -> Result<Verdict, Refusal>
        ensures { DoesIf (event s.now ≡ Ok read.now) list.now inbox.old inbox.new outbox.old outbox.new self.old self.new result (λ st. receive_of st s.now) }
    {
        let row = self.admit(list, s, &read.names, read.body.place)?;
        if is_misnumbered(&read.body) {
            return Err(Refusal::BadEventNumber);
        }
        let verdict = self.take(inbox, outbox, row.event_from(s, &read.body))?;
        self.extend(row.our_place(read.body.place), row);
        Ok(verdict)
    }

    // Receives an event telegram.
    pub fn receive(
        &mut self,
        list: &[u8],
        inbox: &mut [u32],
        outbox: &mut [u32],
        s: &[u8],
    ) -> Result<Verdict, Refusal>
        ensures { Does list.now inbox.old inbox.new outbox.old outbox.new (has_words (length inbox.old) (length outbox.old)) self.old self.new result (λ st. receive_of st s.now) }
    {
        if !has_words(inbox.len(), outbox.len()) {
            return Err(Refusal::OutOfRange);
        }
        let read = telegrams::read_event(s)?;
        self.receive_body(list, inbox, outbox, s, &read)
    }
}
