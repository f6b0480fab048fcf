// Delivery: which event is ready, what it raises, and the frontier.
ghost use Rattle.std.specs.Prelude.{◌≡◌, ℕ, ◌≤◌, List, [], length, leb};
ghost use Rattle.clock.specs.declared.causal_frontier.CausalFrontier.{CausalFrontier};
ghost use Rattle.tcsb.specs.Replica.{entry_ready, ready_by, next_call, deliver_call, stable_call};
ghost use Rattle.tcsb.specs.Tcsb.{Does};
ghost use Rattle.tcsb.specs.Delivery.{FirstReady, DeliversAt};

use crate::tcsb::{INBOX, OUTBOX, Tcsb};
use clock::causal_frontier::CausalFrontier;
use clock::id::EventId;
use clock::version_vector::{MEMBERS, Row, Version};
use refusal::Refusal;
use store::event::{Event, load};
use store::order::{SLOTS, Slots};

// Whether an entry is ours plus one at the origin, at most ours elsewhere.
// kept: the bool is no switch on a step: document 01 asks another thing of the origin's entry than of the others, and `entry_ready` says both in this form
fn is_entry_ready(ours: u32, entry: u32, origin: bool) -> bool
    ensures { result ≡ entry_ready ours entry origin }
{
    if origin {
        ours < entry && entry - ours == 1
    } else {
        entry <= ours
    }
}

// An event is ready when its origin entry is ours plus one and each other entry is at most ours.
pub(crate) fn is_causally_ready(row: Row, members: usize, event: &Event) -> bool
    ensures { members ≤ 16 → result ≡ ready_by members row.entries event.now }
{
    (0..members.min(MEMBERS)).all(|j| {
        is_entry_ready(
            row.entries[j],
            event.version.entries[j],
            j == event.origin.0,
        )
    })
}

// The first event of an order that is ready: its position.
pub(crate) fn first_ready(order: &Slots, words: &[u32], row: Row, members: usize) -> Option<usize>
    ensures { FirstReady words.now order.now row members result }
{
    order.meant().iter().position(|&slot| is_causally_ready(row, members, &load(words, slot)))
}

impl Tcsb {
    // The event at a position leaves the inbox and joins our row. The origin's row takes every larger entry, and those columns replace the list
    // of raised columns.
    pub(crate) fn deliver_at(
        &mut self,
        inbox: &[u32],
        position: usize,
    ) -> Result<Option<Event>, Refusal>
        ensures { DeliversAt inbox.now self.old position self.new result }
    {
        if SLOTS <= position {
            return Ok(None);
        }
        let event = load(inbox, self.inbox.order.at[position]);
        let own = self.matrix.origin;
        let joined = self
            .matrix
            .row(own)
            .join(event.version, self.matrix.members);
        let version = Version {
            members: self.matrix.members,
            origin: event.origin,
            row: event.version,
        };
        let mut matrix = self.matrix;
        matrix.put_row(own, joined);
        self.raised = matrix.set_by_idx_incremental(event.origin, &version)?;
        self.matrix = matrix;
        let _ = self.inbox.remove(position);
        Ok(Some(event))
    }

    // Delivers the next ready event: of the ready, the lowest origin place goes first.
    pub fn next_causally_ready(&mut self, inbox: &[u32]) -> Result<Option<Event>, Refusal>
        ensures { (list q : List ℕ) → Does list inbox.now inbox.now q q (leb 1728 (length inbox.now)) self.old self.new result next_call }
    {
        if inbox.len() < INBOX {
            return Err(Refusal::OutOfRange);
        }
        let row = self.matrix.row(self.matrix.origin);
        match first_ready(&self.inbox.order, inbox, row, self.matrix.members) {
            None => Ok(None),
            Some(position) => self.deliver_at(inbox, position),
        }
    }

    // Delivers a named event, if it is ready and waiting.
    pub fn deliver(&mut self, inbox: &[u32], id: EventId) -> Result<Option<Event>, Refusal>
        ensures { (list q : List ℕ) → Does list inbox.now inbox.now q q (leb 1728 (length inbox.now)) self.old self.new result (λ st. deliver_call st id.idx.0 id.seq) }
    {
        if inbox.len() < INBOX {
            return Err(Refusal::OutOfRange);
        }
        let Ok(position) = self.inbox.find(inbox, id) else {
            return Ok(None);
        };
        let row = self.matrix.row(self.matrix.origin);
        let members = self.matrix.members;
        if SLOTS <= position
            || !is_causally_ready(row, members, &load(inbox, self.inbox.order.at[position]))
        {
            return Ok(None);
        }
        self.deliver_at(inbox, position)
    }

    // For each listed column: if a row holds exactly the frontier's entry it stays, else it becomes the least of the column. If anything moved,
    // events at or below it leave the outbox, and the frontier is answered; else none.
    pub fn is_stable(&mut self, outbox: &[u32]) -> Result<Option<CausalFrontier>, Refusal>
        ensures does { (list p : List ℕ) → Does list p p outbox.now outbox.now (leb 6912 (length outbox.now)) self.old self.new result stable_call }
        ensures stands { (f : CausalFrontier) → result ≡ Ok (Some f) → self.new.frontier ≡ f }
    {
        if outbox.len() < OUTBOX {
            return Err(Refusal::OutOfRange);
        }
        let frontier = self
            .matrix
            .column_wise_min_incremental(&self.frontier, self.raised)?;
        if frontier.row.eq(self.frontier.row, self.matrix.members) {
            return Ok(None);
        }
        let _ = self.outbox.prune(outbox, frontier.row);
        self.frontier = frontier;
        Ok(Some(frontier))
    }
}
