// Fields: a number within its bounds, and bytes as a part of the telegram.
ghost use Rattle.std.specs.Prelude.{◌≡◌, ◌+◌, ◌≤◌, length, leb};
ghost use Rattle.leb128.specs.Leb128.{spell};
ghost use Rattle.telegram.specs.Fields.{number_of, kind, counted, placed, sized, text};
ghost use Rattle.telegram.specs.Meaning.{sized_bytes};
ghost use Rattle.telegram.specs.Writing.{part_fits, Room, Put};

use leb128::Got;
use refusal::Refusal;

// What a telegram is, by the number that it begins with.
#[derive(Clone, Copy, Debug, PartialEq, Eq)]
pub enum Kind {
    Event = 1,
    Batch = 2,
    Since = 3,
}

impl Kind {
    // The number that a telegram of the kind begins with.
    pub(crate) fn number(self) -> u32
        ensures { result ≡ number_of self }
    {
        self as u32
    }
}

// A part of a slice of bytes.
#[derive(Clone, Copy, Debug, PartialEq, Eq)]
pub struct Part {
    pub start: usize,
    pub len: usize,
}

impl Part {
    // The bytes of the part; what doesn't lie in its slice isn't held.
    pub fn of<'a>(self, s: &'a [u8]) -> &'a [u8]
        ensures { result.now ≡ text s.now self }
    {
        if s.len() <= self.start {
            return &[];
        }
        let rest = &s[self.start..];
        if rest.len() < self.len {
            return rest;
        }
        &rest[..self.len]
    }
}

// The telegram's kind.
// kept: `s, at` go side by side through the readers, `out, at` through the writers, as through the definitions (`sized 0 32 s at`); a reader or writer that
// holds both would be made in each public call, whose arguments may not change, and read no plainer
#[tactic(auto, unfolding(crate::specs::Fields::kind))]
pub(crate) fn read_kind(s: &[u8], at: usize, wanted: Kind) -> Result<Got<u32>, Refusal>
    ensures { result ≡ kind (number_of wanted) s.now at }
{
    let kind = leb128::read(s, at)?;
    if kind.value != wanted.number() {
        return Err(Refusal::WrongKind);
    }
    Ok(kind)
}

// A count or length from low to high.
#[tactic(auto, unfolding(crate::specs::Fields::counted))]
pub(crate) fn read_count(s: &[u8], at: usize, low: u32, high: u32) -> Result<Got<u32>, Refusal>
    ensures { result ≡ counted low high s.now at }
{
    let count = leb128::read(s, at)?;
    if count.value < low || high < count.value {
        return Err(Refusal::OutOfRange);
    }
    Ok(count)
}

// A place below a count.
#[tactic(auto, unfolding(crate::specs::Fields::placed))]
pub(crate) fn read_place(s: &[u8], at: usize, count: usize) -> Result<Got<u32>, Refusal>
    ensures { result ≡ placed count s.now at }
{
    let place = leb128::read(s, at)?;
    if count <= place.value as usize {
        return Err(Refusal::BadPlace);
    }
    Ok(place)
}

// A length from low to high, then its bytes.
#[tactic(auto, unfolding(crate::specs::Fields::sized, crate::specs::Fields::part))]
pub(crate) fn read_sized(s: &[u8], at: usize, low: u32, high: u32) -> Result<Got<Part>, Refusal>
    ensures { result ≡ sized low high s.now at }
{
    let length = read_count(s, at, low, high)?;
    let start = length.next;
    let len = length.value as usize;
    if s.len() - start < len {
        return Err(Refusal::EndsInField);
    }
    let value = Part { start, len };
    Ok(Got {
        value,
        next: start + len,
    })
}

// A part whose length is from low to high and that lies in its slice.
pub(crate) fn part_fits(s: &[u8], part: Part, low: usize, high: usize) -> bool
    ensures { result ≡ part_fits low high s.now part }
{
    low <= part.len && part.len <= high && part.len <= s.len() && part.start <= s.len() - part.len
}

// A buffer of a length has room from a place on for a width and what comes behind it.
pub(crate) fn has_room(len: usize, at: usize, width: usize, behind: usize) -> bool
    ensures { result ≡ leb (at + (width + behind)) len }
{
    at <= len && width <= len - at && behind <= len - at - width
}

// Writes a number where it fits.
pub(crate) fn put_number(out: &mut [u8], at: usize, value: u32) -> usize
    requires { Room out.old at (spell value) }
    ensures { Put out.old out.new at (spell value) result }
{
    leb128::write(out, at, value).unwrap_or(at)
}

// Writes bytes where they fit.
fn put_text(out: &mut [u8], at: usize, text: &[u8]) -> usize
    requires { Room out.old at text.now }
    ensures { Put out.old out.new at text.now result }
{
    let next = at + text.len();
    out[at..next].copy_from_slice(text);
    next
}

// Writes a length and its bytes where they fit.
#[tactic(auto, unfolding(crate::specs::Meaning::sized_bytes))]
pub(crate) fn put_sized(out: &mut [u8], at: usize, text: &[u8]) -> usize
    requires { Room out.old at (sized_bytes text.now) × (length text.now ≤ 32) }
    ensures { Put out.old out.new at (sized_bytes text.now) result }
{
    let next = put_number(out, at, text.len() as u32);
    put_text(out, next, text)
}
