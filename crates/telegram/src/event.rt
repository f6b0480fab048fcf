// The event telegram: 1, list, event body.
ghost use Rattle.std.specs.Prelude.{◌≡◌};
ghost use Rattle.telegram.specs.Reading.{event_form, event};
ghost use Rattle.telegram.specs.Writing.{event_spelt, Wrote};

use crate::body::{Body, body_width, put_body, read_fields};
use crate::field::{Kind, has_room, put_number, read_kind};
use crate::list::{Names, is_fair, list_width, put_list, read_list};
use refusal::Refusal;

// The sender of an event telegram is its origin.
#[derive(Clone, Copy, Debug, PartialEq, Eq)]
pub struct Event {
    pub names: Names,
    pub body: Body,
}

// The fields, and that nothing follows them.
#[tactic(auto, unfolding(crate::specs::Reading::event_form))]
fn read_form(s: &[u8]) -> Result<Event, Refusal>
    ensures { result ≡ event_form s.now }
{
    let kind = read_kind(s, 0, Kind::Event)?;
    let list = read_list(s, kind.next)?;
    let names = list.value;
    let body = read_fields(s, list.next, names.count)?;
    if body.next != s.len() {
        return Err(Refusal::BytesFollow);
    }
    Ok(Event {
        names,
        body: body.value,
    })
}

// What an event telegram says, or why it is refused.
// kept: form, then names, as `read_items` judges a batch or a since; an event has neither head nor count
pub fn read_event(s: &[u8]) -> Result<Event, Refusal>
    ensures { result ≡ event s.now }
{
    let event = read_form(s)?;
    if !is_fair(s, &event.names) {
        return Err(Refusal::BadName);
    }
    Ok(event)
}

// Writes an event telegram; the names are parts of t, the operation is a part of s.
pub fn write_event(
    out: &mut [u8],
    t: &[u8],
    names: &Names,
    s: &[u8],
    body: &Body,
) -> Result<usize, Refusal>
    ensures { Wrote out.old out.new 0 0 (event_spelt t.now names.now s.now body.now) result }
{
    let list = list_width(t, names)?;
    let rest = body_width(names.count, s, body)?;
    if !has_room(out.len(), 0, 1 + list + rest, 0) {
        return Err(Refusal::BufferShort);
    }
    let behind_kind = put_number(out, 0, Kind::Event.number());
    let behind_list = put_list(out, behind_kind, t, names);
    Ok(put_body(out, behind_list, names.count, s, body))
}
