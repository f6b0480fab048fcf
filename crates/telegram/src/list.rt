// The list of names that a telegram's places count in.
ghost use Rattle.std.specs.Prelude.{◌≡◌, ◌≤◌, ◌<◌, true};
ghost use Rattle.telegram.specs.Fields.{text};
ghost use Rattle.telegram.specs.Reading.{names, list, texts, fair_bytes, same_bytes, fair_at, fair};
ghost use Rattle.telegram.specs.Meaning.{list_bytes};
ghost use Rattle.telegram.specs.Writing.{list_fits, names_spelt, list_spelt, list_judged, measured, Room, Put, Wrote};

use crate::field::{Part, has_room, part_fits, put_number, put_sized, read_count, read_sized};
use leb128::Got;
use refusal::Refusal;

// The most names of a list, which is the most members.
pub const MEMBERS: usize = 16;

// How many names, and each as a part of the bytes that hold it; the parts behind the count are empty.
// kept: a count beside an array: no heap, fixed memory, and plain types can be copied
#[derive(Clone, Copy, Debug, PartialEq, Eq)]
pub struct Names {
    pub count: usize,
    pub parts: [Part; 16],
}

// So many names.
// kept: `count ≤ 16` is asked here, by `is_fair_at`, `is_fair`, `names_width`, by three functions of body.rt and two of items.rt: a count stands in `Names`,
// whose fields are public, and as its invariant it would ask more of those who call `judge_list`, `write_list` and `write_event`
fn read_names(s: &[u8], at: usize, count: usize) -> Result<Got<Names>, Refusal>
    requires { count ≤ 16 }
    ensures { result ≡ names count s.now at }
{
    let mut parts = [Part { start: 0, len: 0 }; 16];
    let mut next = at;
    for i in 0..count {
        let name = read_sized(s, next, 1, 16)?;
        parts[i] = name.value;
        next = name.next;
    }
    let value = Names { count, parts };
    Ok(Got { value, next })
}

// The list at a place: count 1 to 16, then each name as length and bytes.
#[tactic(auto, unfolding(crate::specs::Reading::list))]
pub fn read_list(s: &[u8], at: usize) -> Result<Got<Names>, Refusal>
    ensures { result ≡ list s.now at }
{
    let count = read_count(s, at, 1, 16)?;
    read_names(s, count.next, count.value as usize)
}

// Every byte of a name is 0x21 to 0x7E.
fn is_fair_name(name: &[u8]) -> bool
    ensures { result ≡ fair_bytes name.now }
{
    name.iter().all(|b| 33 <= *b && *b <= 126)
}

// Two names are the same bytes.
#[tactic(auto, using(crate::proofs::Fair::same_names))]
fn same_bytes(a: &[u8], b: &[u8]) -> bool
    ensures { result ≡ same_bytes a.now b.now }
{
    a == b
}

// Two parts hold the same bytes; what doesn't lie in its slice isn't held.
pub fn same_text(s: &[u8], a: Part, t: &[u8], b: Part) -> bool
    ensures { result ≡ same_bytes (text s.now a) (text t.now b) }
{
    same_bytes(a.of(s), b.of(t))
}

// The name at a place has no wrong byte, and no name before it is the same.
fn is_fair_at(s: &[u8], names: &Names, place: usize) -> bool
    requires { (names.now.count ≤ 16) × (place < names.now.count) }
    ensures { result ≡ fair_at (texts s.now names.now) place }
{
    let name = names.parts[place].of(s);
    is_fair_name(name)
        && names.parts[..place]
            .iter()
            .all(|earlier| !same_bytes(earlier.of(s), name))
}

// No name has a wrong byte, and none stands twice.
pub(crate) fn is_fair(s: &[u8], names: &Names) -> bool
    requires { names.now.count ≤ 16 }
    ensures { result ≡ fair (texts s.now names.now) }
{
    (0..names.count).all(|place| is_fair_at(s, names, place))
}

// How many bytes the names take with their lengths.
fn names_width(s: &[u8], names: &Names) -> Result<usize, Refusal>
    requires { names.now.count ≤ 16 }
    ensures { result ≡ measured (names_spelt s.now names.now names.now.count) }
{
    let mut sum: usize = 0;
    for part in &names.parts[..names.count] {
        if !part_fits(s, *part, 1, 16) {
            return Err(Refusal::OutOfRange);
        }
        sum += 1 + part.len;
    }
    Ok(sum)
}

// How many bytes a list takes.
pub(crate) fn list_width(s: &[u8], names: &Names) -> Result<usize, Refusal>
    ensures { result ≡ measured (list_spelt s.now names.now) }
{
    if names.count < 1 || MEMBERS < names.count {
        return Err(Refusal::OutOfRange);
    }
    let sum = names_width(s, names)?;
    Ok(1 + sum)
}

// A list of names by itself: 4 for its count or the length of a name, 6 for a name with a wrong byte, or twice.
pub fn judge_list(s: &[u8], names: &Names) -> Result<(), Refusal>
    ensures { result ≡ list_judged s.now names.now }
{
    list_width(s, names)?;
    if !is_fair(s, names) {
        return Err(Refusal::BadName);
    }
    Ok(())
}

// Writes a list where it fits.
pub(crate) fn put_list(out: &mut [u8], at: usize, s: &[u8], names: &Names) -> usize
    requires { (list_fits s.now names.now ≡ true) × Room out.old at (list_bytes (texts s.now names.now)) }
    ensures { Put out.old out.new at (list_bytes (texts s.now names.now)) result }
{
    let mut next = put_number(out, at, names.count as u32);
    for part in &names.parts[..names.count] {
        next = put_sized(out, next, part.of(s));
    }
    next
}

// Writes a list at a place of a buffer.
// kept: `write_body`, `write_exception` and `write_head` go the same way, width, room, put; a trait of these three steps is no plainer, since what each step
// is asked has a definition of its own, and two of them need the bytes that hold the parts
pub fn write_list(out: &mut [u8], at: usize, s: &[u8], names: &Names) -> Result<usize, Refusal>
    ensures { Wrote out.old out.new at 0 (list_spelt s.now names.now) result }
{
    let width = list_width(s, names)?;
    if !has_room(out.len(), at, width, 0) {
        return Err(Refusal::BufferShort);
    }
    Ok(put_list(out, at, s, names))
}
