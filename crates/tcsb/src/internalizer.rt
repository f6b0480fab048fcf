// Names to places: which member a listed name is, and a row for each sender that turns its places into ours.
ghost use Rattle.std.specs.Prelude.{◌≡◌, ℕ, ◌<◌, ◌≤◌, get_or, IfSome};
ghost use Rattle.lists.specs.Lists.{at, tab};
ghost use Rattle.telegram.specs.Fields.{text};
ghost use Rattle.telegram.specs.Reading.{texts};
ghost use Rattle.tcsb.specs.Internalizer.{no_translation, member_at, translation_of, continues, our_place, our_entries, event_of};
ghost use Rattle.tcsb.specs.Replica.{admitted_by};

use crate::tcsb::Tcsb;
use clock::id::ReplicaIdx;
use clock::version_vector::Row;
use refusal::Refusal;
use store::event::{Event, OPERATION};
use telegram::body::{Body, Place};
use telegram::field::Part;
use telegram::list::{MEMBERS, Names, same_text};

// Our places of the names that a sender lists, by their places in its list; 0 behind them.
// kept: an array and its count: no heap, fixed memory, and plain types can be copied, which no library type with a length of its own can; that the count is at
// most sixteen is a premise of four clauses and no invariant, since `translate` takes it from `Names`, whose fields are public and bound nothing, as `translation_of` does; so the
// like premises of `member_of`, `translate` and `admit` on names stand, too
#[derive(Clone, Copy, Debug, PartialEq, Eq)]
pub struct Translation {
    pub count: usize,
    pub places: [u8; 16],
}

// Which member a listed name is.
pub(crate) fn member_of(list: &[u8], names: &Names, s: &[u8], name: Part) -> Option<usize>
    ensures few { IfSome result (λ i. i < 16) }
    ensures place { names.now.count ≤ 16 → result ≡ member_at (texts list.now names.now) (text s.now name) }
{
    names
        .parts
        .iter()
        .take(names.count)
        .position(|member| same_text(list, *member, s, name))
}

// Our places of the names that a sender lists: refused with 7 where one is no member.
pub(crate) fn translate(
    list: &[u8],
    names: &Names,
    s: &[u8],
    listed: &Names,
) -> Result<Translation, Refusal>
    ensures { names.now.count ≤ 16 → listed.now.count ≤ 16 → result ≡ translation_of (texts list.now names.now) (texts s.now listed.now) }
{
    let mut places = [0u8; 16];
    for p in 0..listed.count.min(MEMBERS) {
        let Some(place) = member_of(list, names, s, listed.parts[p]) else {
            return Err(Refusal::NoMember);
        };
        places[p] = place as u8;
    }
    Ok(Translation {
        count: listed.count,
        places,
    })
}

// The bytes of an operation, 0 behind them.
pub(crate) fn operation_of(s: &[u8], part: Part) -> [u8; 32]
    ensures { result ≡ tab 32 (at (text s.now part)) }
{
    let mut operation = [0u8; OPERATION];
    let text = part.of(s);
    let len = text.len().min(OPERATION);
    operation[..len].copy_from_slice(&text[..len]);
    operation
}

impl Translation {
    // The row of a sender that never sent.
    pub(crate) fn none() -> Translation
        ensures { result ≡ no_translation }
    {
        Translation {
            count: 0,
            places: [0; 16],
        }
    }

    // Whether this row has all that the known one has, in its places.
    pub(crate) fn goes_on(&self, known: &Translation) -> bool
        ensures { known.now.count ≤ 16 → result ≡ continues known.now self.now }
    {
        known.count <= self.count
            && known
                .places
                .iter()
                .zip(&self.places)
                .take(known.count)
                .all(|(a, b)| *a == *b)
    }

    // Our place of a sender's place.
    pub(crate) fn our_place(&self, place: Place) -> ReplicaIdx
        ensures { result.0 ≡ our_place self.now place.0 }
    {
        let ours = self.places.get(place.0).copied().unwrap_or(0);
        ReplicaIdx(ours as usize)
    }

    // A sender's entries at our places; a member that the sender doesn't list has entry 0.
    pub(crate) fn our_row(&self, entries: &[u32; 16]) -> Row
        ensures { self.now.count ≤ 16 → result.entries ≡ our_entries self.now.count self.now entries.now }
    {
        let mut row = Row::zeros();
        for p in 0..self.count.min(MEMBERS) {
            row = row.set(self.our_place(Place(p)), entries[p]);
        }
        row
    }

    // An event body as an event of ours.
    pub(crate) fn event_from(&self, s: &[u8], body: &Body) -> Event
        ensures { self.now.count ≤ 16 → result ≡ event_of self.now s.now body.now }
    {
        Event {
            origin: self.our_place(body.place),
            number: body.number,
            version: self.our_row(&body.entries),
            len: body.operation.len,
            operation: operation_of(s, body.operation),
        }
    }
}

impl Tcsb {
    // The known row of a sender.
    fn known_row(&self, sender: ReplicaIdx) -> Translation
        ensures { result ≡ get_or self.now.known sender.0 no_translation }
    {
        self.known
            .get(sender.0)
            .copied()
            .unwrap_or(Translation::none())
    }

    // The row of a telegram's sender: refused with 7, with 8 where the list is shorter than the known row or differs in it, with 10 where the
    // sender is ourselves.
    pub(crate) fn admit(
        &self,
        list: &[u8],
        s: &[u8],
        listed: &Names,
        sender: Place,
    ) -> Result<Translation, Refusal>
        ensures { self.now.names.count ≤ 16 → listed.now.count ≤ 16 → ((i : ℕ) → (get_or self.now.known i no_translation).count ≤ 16) → result ≡ admitted_by (texts list.now self.now.names) self.now.known self.now.matrix.origin.0 (texts s.now listed.now) sender.0 }
    {
        let row = translate(list, &self.names, s, listed)?;
        let place = row.our_place(sender);
        if !row.goes_on(&self.known_row(place)) {
            return Err(Refusal::ListDiffers);
        }
        if place == self.matrix.origin {
            return Err(Refusal::FromOurselves);
        }
        Ok(row)
    }
}
