// The since telegram: 3, list, sender's place, sender's version, count, pairs of place and number.
ghost use Rattle.std.specs.Prelude.{◌≡◌};
ghost use Rattle.telegram.specs.Reading.{exception, since};
ghost use Rattle.telegram.specs.Writing.{exception_spelt, head_spelt, measured, Wrote};

use crate::body::Place;
use crate::field::{Kind, has_room, put_number, read_place};
use crate::head::{Head, write_head};
use crate::items::{Item, read_items};
use crate::list::MEMBERS;
use leb128::Got;
use refusal::Refusal;

// The most exceptions of a since.
pub const EXCEPTIONS: u32 = 64;

// The id of an event that is not wanted, by its place in the sender's list.
#[derive(Clone, Copy, Debug, PartialEq, Eq)]
pub struct Exception {
    pub place: Place,
    pub number: u32,
}

// So many exceptions from a place on, each read by itself with `read_exception`.
// kept: `Batch` but for the name of a field, by which callers of `read_batch` and `read_since` know what they hold; so those two calls are alike, too
#[derive(Clone, Copy, Debug, PartialEq, Eq)]
pub struct Since {
    pub head: Head,
    pub count: usize,
    pub exceptions: usize,
}

impl Item for Exception {
    ghost read_of = { exception };

    fn read(s: &[u8], at: usize, names: usize) -> Result<Got<Exception>, Refusal> {
        read_exception(s, at, names)
    }
}

// The exception at a place, behind a list of so many names.
#[tactic(auto, unfolding(crate::specs::Reading::exception))]
pub fn read_exception(s: &[u8], at: usize, count: usize) -> Result<Got<Exception>, Refusal>
    ensures { result ≡ exception count s.now at }
{
    let place = read_place(s, at, count)?;
    let number = leb128::read(s, place.next)?;
    let value = Exception {
        place: Place(place.value as usize),
        number: number.value,
    };
    Ok(Got {
        value,
        next: number.next,
    })
}

// What a since telegram says, or why it is refused.
pub fn read_since(s: &[u8]) -> Result<Since, Refusal>
    ensures { result ≡ since s.now }
{
    let items = read_items::<Exception>(s, Kind::Since, EXCEPTIONS)?;
    Ok(Since {
        head: items.head,
        count: items.count,
        exceptions: items.start,
    })
}

// How many bytes an exception takes behind a list of so many names.
#[tactic(auto, unfolding(crate::specs::Writing::exception_spelt, crate::specs::Meaning::exception_bytes))]
pub fn exception_width(count: usize, exception: Exception) -> Result<usize, Refusal>
    ensures { result ≡ measured (exception_spelt count exception) }
{
    if MEMBERS < count {
        return Err(Refusal::OutOfRange);
    }
    let place = exception.place.0;
    if count <= place {
        return Err(Refusal::BadPlace);
    }
    Ok(leb128::width(place as u32) + leb128::width(exception.number))
}

// Writes an exception at a place of a buffer, behind a list of so many names.
pub fn write_exception(
    out: &mut [u8],
    at: usize,
    count: usize,
    exception: Exception,
) -> Result<usize, Refusal>
    ensures { Wrote out.old out.new at 0 (exception_spelt count exception) result }
{
    let width = exception_width(count, exception)?;
    if !has_room(out.len(), at, width, 0) {
        return Err(Refusal::BufferShort);
    }
    let behind_place = put_number(out, at, exception.place.0 as u32);
    Ok(put_number(out, behind_place, exception.number))
}

// Writes a since telegram up to its exceptions, the names being parts of s; `write_exception` then writes each exception behind it. Refused
// with 15 where the exceptions, `behind` bytes in all, would not fit.
// kept: `write_batch_head` but for the kind and a limit; both are public, and each only hands them on to `write_head`
pub fn write_since_head(
    out: &mut [u8],
    s: &[u8],
    head: &Head,
    count: usize,
    behind: usize,
) -> Result<usize, Refusal>
    ensures { Wrote out.old out.new 0 behind (head_spelt 3 64 s.now head.now count) result }
{
    write_head(
        out,
        Kind::Since,
        EXCEPTIONS as usize,
        s,
        head,
        count,
        behind,
    )
}
