// A batch: judged whole before anything is stored.
ghost use Rattle.std.specs.Prelude.{◌≡◌, ℕ, ◌<◌, ◌≤◌, List, length};
ghost use Rattle.tcsb.specs.Replica.{batch_of};
ghost use Rattle.tcsb.specs.Tcsb.{has_words, Does, DoesIf};
ghost use Rattle.tcsb.specs.Survey.{no_ids, has_id, with_id, raised_tally, no_survey, Long, Few, noted_by, SurveysMore, SurveysAll, RecordsBody, RecordsAll, Admits};

use crate::internalizer::Translation;
use crate::receive::{Verdict, is_misnumbered, new_in, room_for};
use crate::tcsb::{Tcsb, has_words};
use clock::id::EventId;
use refusal::Refusal;
use store::event::Event;
use telegram::batch::{Batch, read_batch};
use telegram::body::{Body, read_body};

// The most ids.
const IDS: usize = 256;

// How many events of a batch were taken, duplicate and stale.
#[derive(Clone, Copy, Debug, Default, PartialEq, Eq)]
pub struct Tally {
    pub taken: usize,
    pub duplicate: usize,
    pub stale: usize,
}

// The ids of a batch's events that are to be taken, each once.
// kept: an array and its count: no heap, fixed memory, and plain types can be copied, which no library type with a length of its own can; not one type with
// the store's `Slots`, with which it shares `none` and `push` alone, two lines each; that the count is at most 256 is asked by `has`, `is_wanted` and `wanted`
// and is no ghost field, since the definition `with_id` makes ids of any count
#[derive(Clone, Copy, Debug)]
pub struct Ids {
    pub(crate) at: [EventId; IDS],
    pub(crate) count: usize,
}

// What a walk over a batch's bodies found: whether an origin is ourselves, whether an event is numbered wrong, the tally, the ids to be taken,
// and how many of those are new to the inbox and to the outbox.
// kept: `own` and `misnumbered` are marks and no refusals yet: 10 goes before 11, whichever body comes first
#[derive(Clone, Copy, Debug)]
pub struct Survey {
    pub(crate) own: bool,
    pub(crate) misnumbered: bool,
    pub(crate) tally: Tally,
    pub(crate) ids: Ids,
    pub(crate) waiting: usize,
    pub(crate) kept: usize,
}

impl Ids {
    // No ids.
    pub(crate) fn none() -> Ids
        ensures { result ≡ no_ids }
    {
        Ids {
            at: [EventId::default(); IDS],
            count: 0,
        }
    }

    // Whether an id is among them.
    pub(crate) fn has(&self, id: EventId) -> bool
        requires { self.now.count ≤ 256 }
        ensures { (result ≡ has_id self.now id.idx.0 id.seq) × Long self.now }
    {
        self.at[..self.count].contains(&id)
    }

    // One more id.
    pub(crate) fn push(&mut self, id: EventId)
        requires { self.old.count < 256 }
        ensures { self.new ≡ with_id self.old id.idx.0 id.seq }
    {
        self.at[self.count] = id;
        self.count += 1;
    }
}

impl Tally {
    // One more verdict.
    fn count(&mut self, verdict: Verdict)
        requires { (self.old.taken ≤ 256) × (self.old.duplicate ≤ 256) × (self.old.stale ≤ 256) }
        ensures { self.new ≡ raised_tally self.old verdict }
    {
        match verdict {
            Verdict::Taken => self.taken += 1,
            Verdict::Duplicate => self.duplicate += 1,
            Verdict::Stale => self.stale += 1,
        }
    }
}

impl Survey {
    // What is found before the first body.
    fn none() -> Survey
        ensures { result ≡ no_survey }
    {
        Survey {
            own: false,
            misnumbered: false,
            tally: Tally::default(),
            ids: Ids::none(),
            waiting: 0,
            kept: 0,
        }
    }
}

impl Tcsb {
    // The survey with the id of an event that is to be taken.
    fn note(&self, inbox: &[u32], outbox: &[u32], survey: &mut Survey, event: &Event)
        requires { (survey.old.ids.count ≤ 255) × (survey.old.waiting ≤ 255) × (survey.old.kept ≤ 255) }
        ensures { (survey.new ≡ noted_by inbox.now outbox.now self.now survey.old event.now) × Long survey.old.ids }
    {
        let id = event.id();
        if !survey.ids.has(id) {
            survey.ids.push(id);
            survey.waiting += new_in(&self.inbox, inbox, id);
            survey.kept += new_in(&self.outbox, outbox, id);
        }
    }

    // The survey with one body more.
    fn survey_body(
        &self,
        inbox: &[u32],
        outbox: &[u32],
        row: &Translation,
        s: &[u8],
        survey: &mut Survey,
        body: &Body,
    )
        requires { Few 255 survey.old }
        ensures { SurveysMore inbox.now outbox.now self.now row.now s.now survey.old body.now survey.new }
    {
        survey.own |= row.our_place(body.place) == self.matrix.origin;
        survey.misnumbered |= is_misnumbered(body);
        let event = row.event_from(s, body);
        let verdict = self.judge(&event);
        survey.tally.count(verdict);
        if verdict == Verdict::Taken {
            self.note(inbox, outbox, survey, &event);
        }
    }

    // A walk over the bodies of a batch.
    fn survey_bodies(
        &self,
        inbox: &[u32],
        outbox: &[u32],
        row: &Translation,
        s: &[u8],
        batch: &Batch,
    ) -> Result<Survey, Refusal>
        requires { batch.now.count ≤ 256 }
        ensures { SurveysAll inbox.now outbox.now self.now row.now s.now batch.now.bodies batch.now.head.names.count batch.now.count result }
    {
        let mut survey = Survey::none();
        let mut next = batch.bodies;
        for _ in 0..batch.count {
            let body = read_body(s, next, batch.head.names.count)?;
            self.survey_body(inbox, outbox, row, s, &mut survey, &body.value);
            next = body.next;
        }
        Ok(survey)
    }

    // Stores a body's event if it is to be taken.
    fn record_body(
        &mut self,
        inbox: &mut [u32],
        outbox: &mut [u32],
        row: &Translation,
        s: &[u8],
        body: &Body,
    )
        ensures { RecordsBody inbox.old inbox.new outbox.old outbox.new self.old row.now s.now body.now self.new }
    {
        let event = row.event_from(s, body);
        if self.judge(&event) == Verdict::Taken {
            self.record(inbox, outbox, event);
        }
    }

    // Stores the events of a batch's bodies that are to be taken.
    // kept: a walk of its own beside `survey_bodies` and `read_ids`; one walk that takes a closure, or an iterator that holds the place, is no plainer, since its
    // contract would carry the invariant of each walk
    fn record_bodies(
        &mut self,
        inbox: &mut [u32],
        outbox: &mut [u32],
        row: &Translation,
        s: &[u8],
        batch: &Batch,
    )
        ensures { RecordsAll inbox.old inbox.new outbox.old outbox.new self.old row.now s.now batch.now.bodies batch.now.head.names.count batch.now.count self.new }
    {
        let mut next = batch.bodies;
        for _ in 0..batch.count {
            let Ok(body) = read_body(s, next, batch.head.names.count) else {
                return;
            };
            self.record_body(inbox, outbox, row, s, &body.value);
            next = body.next;
        }
    }

    // The bodies of a batch that was read, through its sender's row: 10, 11, 12, 13.
    fn receive_bodies(
        &mut self,
        inbox: &mut [u32],
        outbox: &mut [u32],
        s: &[u8],
        batch: &Batch,
        row: Translation,
    ) -> Result<Tally, Refusal>
        requires { batch.now.count ≤ 256 }
        ensures { (list : List ℕ) → DoesIf (Admits list inbox.old outbox.old self.old s.now batch.now row) list inbox.old inbox.new outbox.old outbox.new self.old self.new result (λ st. batch_of st s.now) }
    {
        let survey = self.survey_bodies(inbox, outbox, &row, s, batch)?;
        if survey.own {
            return Err(Refusal::FromOurselves);
        }
        if survey.misnumbered {
            return Err(Refusal::BadEventNumber);
        }
        room_for(
            self.inbox.order.count,
            survey.waiting,
            self.outbox.order.count,
            survey.kept,
        )?;
        self.record_bodies(inbox, outbox, &row, s, batch);
        self.extend(row.our_place(batch.head.sender), row);
        Ok(survey.tally)
    }

    // Receives a batch telegram: the same for each event in order; the batch's own version is not used.
    // kept: `pull` goes the same way in four lines, words, reader, row, what is then done, and `receive` in three; each calls another reader and does another
    // thing. The words are tested in each call that is lent some, since no public call asks anything of its caller
    pub fn receive_batch(
        &mut self,
        list: &[u8],
        inbox: &mut [u32],
        outbox: &mut [u32],
        s: &[u8],
    ) -> Result<Tally, Refusal>
        ensures { Does list.now inbox.old inbox.new outbox.old outbox.new (has_words (length inbox.old) (length outbox.old)) self.old self.new result (λ st. batch_of st s.now) }
    {
        if !has_words(inbox.len(), outbox.len()) {
            return Err(Refusal::OutOfRange);
        }
        let batch = read_batch(s)?;
        let row = self.admit(list, s, &batch.head.names, batch.head.sender)?;
        self.receive_bodies(inbox, outbox, s, &batch, row)
    }
}
