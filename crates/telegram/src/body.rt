// Event bodies: an event as it stands in a telegram, behind the list that its places count in.
ghost use Rattle.std.specs.Prelude.{◌≡◌, ◌≤◌, ◌<◌, true, length};
ghost use Rattle.telegram.specs.Reading.{entries, body, body_at};
ghost use Rattle.telegram.specs.Meaning.{version_bytes, body_bytes, body_of};
ghost use Rattle.telegram.specs.Writing.{part_fits, body_spelt, measured, Room, Put, Wrote};

use crate::field::{Part, has_room, part_fits, put_number, put_sized, read_place, read_sized};
use crate::list::MEMBERS;
use leb128::Got;
use refusal::Refusal;

// A place in a sender's list, which is no place in ours.
#[derive(Clone, Copy, Debug, PartialEq, Eq)]
pub struct Place(pub usize);

// One version entry per listed name, 0 behind them; the operation is a part of the bytes that hold the body.
// kept: entries in an array whose count stands elsewhere: no heap, fixed memory, and plain types can be copied
#[derive(Clone, Copy, Debug, PartialEq, Eq)]
pub struct Body {
    pub place: Place,
    pub number: u32,
    pub entries: [u32; 16],
    pub operation: Part,
}

// One version entry per listed name.
// kept: the twin of `read_names` of list.rt: one loop that takes what reads a thing, as a trait or a closure, is no plainer than two loops of four lines,
// since it would have to be handed the zero, the array and the reader
pub(crate) fn read_entries(s: &[u8], at: usize, count: usize) -> Result<Got<[u32; 16]>, Refusal>
    requires { count ≤ 16 }
    ensures { result ≡ entries count s.now at }
{
    let mut entries = [0u32; 16];
    let mut next = at;
    for i in 0..count {
        let number = leb128::read(s, next)?;
        entries[i] = number.value;
        next = number.next;
    }
    Ok(Got {
        value: entries,
        next,
    })
}

// Origin's place in the list, number, one version entry per listed name, operation length, operation.
#[tactic(auto, unfolding(crate::specs::Reading::body))]
pub(crate) fn read_fields(s: &[u8], at: usize, count: usize) -> Result<Got<Body>, Refusal>
    requires { count ≤ 16 }
    ensures { result ≡ body count s.now at }
{
    let place = read_place(s, at, count)?;
    let number = leb128::read(s, place.next)?;
    let version = read_entries(s, number.next, count)?;
    let operation = read_sized(s, version.next, 0, 32)?;
    let entries = version.value;
    let value = Body {
        place: Place(place.value as usize),
        number: number.value,
        entries,
        operation: operation.value,
    };
    Ok(Got {
        value,
        next: operation.next,
    })
}

// The event body at a place, behind a list of so many names.
pub fn read_body(s: &[u8], at: usize, count: usize) -> Result<Got<Body>, Refusal>
    ensures { result ≡ body_at count s.now at }
{
    if count <= MEMBERS {
        read_fields(s, at, count)
    } else {
        Err(Refusal::OutOfRange)
    }
}

// How many bytes the entries of a version take.
pub(crate) fn entries_width(version: &[u32]) -> usize
    requires { length version.now ≤ 16 }
    ensures { result ≡ length (version_bytes version.now) }
{
    let mut sum: usize = 0;
    for entry in version {
        sum += leb128::width(*entry);
    }
    sum
}

// Writes the entries of a version where they fit.
pub(crate) fn put_entries(out: &mut [u8], at: usize, version: &[u32]) -> usize
    requires { Room out.old at (version_bytes version.now) }
    ensures { Put out.old out.new at (version_bytes version.now) result }
{
    let mut next = at;
    for entry in version {
        next = put_number(out, next, *entry);
    }
    next
}

// How many bytes a body takes behind a list of so many names, its operation a part of s.
// kept: begins with the two tests of `exception_width`; a function for the two would be as long and need a definition of its own
#[tactic(auto, unfolding(crate::specs::Writing::body_spelt))]
pub fn body_width(count: usize, s: &[u8], body: &Body) -> Result<usize, Refusal>
    ensures { result ≡ measured (body_spelt count s.now body.now) }
{
    if MEMBERS < count {
        return Err(Refusal::OutOfRange);
    }
    if count <= body.place.0 {
        return Err(Refusal::BadPlace);
    }
    if !part_fits(s, body.operation, 0, 32) {
        return Err(Refusal::OutOfRange);
    }
    let version = entries_width(&body.entries[..count]);
    Ok(1 + leb128::width(body.number) + version + 1 + body.operation.len)
}

// Writes a body where it fits.
pub(crate) fn put_body(out: &mut [u8], at: usize, count: usize, s: &[u8], body: &Body) -> usize
    requires { (count ≤ 16) × (body.now.place.0 < count) × (part_fits 0 32 s.now body.now.operation ≡ true) × Room out.old at (body_bytes (body_of count s.now body.now)) }
    ensures { Put out.old out.new at (body_bytes (body_of count s.now body.now)) result }
{
    let behind_place = put_number(out, at, body.place.0 as u32);
    let behind_number = put_number(out, behind_place, body.number);
    let behind_version = put_entries(out, behind_number, &body.entries[..count]);
    put_sized(out, behind_version, body.operation.of(s))
}

// Writes a body at a place of a buffer, behind a list of so many names, its operation a part of s.
pub fn write_body(
    out: &mut [u8],
    at: usize,
    count: usize,
    s: &[u8],
    body: &Body,
) -> Result<usize, Refusal>
    ensures { Wrote out.old out.new at 0 (body_spelt count s.now body.now) result }
{
    let width = body_width(count, s, body)?;
    if !has_room(out.len(), at, width, 0) {
        return Err(Refusal::BufferShort);
    }
    Ok(put_body(out, at, count, s, body))
}
