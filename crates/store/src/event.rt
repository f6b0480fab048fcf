// An event, and the 27 words of a slot that hold it.
ghost use Rattle.std.specs.Prelude.{◌≡◌, ◌+◌, ◌*◌, ◌/◌, ◌%◌, ◌<◌, ◌≤◌, length, get_or};
ghost use Rattle.lists.specs.Lists.{tab};
ghost use Rattle.store.specs.Words.{byte_of, word_of, event_at, id_of, Ran, Saved};

use clock::id::{EventId, ReplicaIdx};
use clock::version_vector::Row;
use std::array;

// One version entry per member, by our own places; the operation is the first `len` bytes, 0 behind them.
// kept: a length beside an array: no heap, fixed memory, and plain types can be copied
#[derive(Clone, Copy, Debug)]
pub struct Event {
    pub origin: ReplicaIdx,
    pub number: u32,
    pub version: Row,
    pub len: usize,
    pub operation: [u8; 32],
}

// The most bytes of an operation.
pub const OPERATION: usize = 32;

// How many words a slot has.
// kept: a slot is plain words and no type, since `Tcsb::receive` and the calls like it are lent `&mut [u32]`, which may not change; not pieces of 27, since a
// slot that is cut short reads as 0 behind the end, as `event_at` says
pub const SLOT: usize = 27;

impl Event {
    // The event's id: its origin's place and its number.
    pub fn id(&self) -> EventId
        ensures { result ≡ id_of self.now }
    {
        EventId {
            idx: self.origin,
            seq: self.number,
        }
    }
}

// A word, and 0 past the end.
pub(crate) fn word(words: &[u32], i: usize) -> u32
    ensures { result ≡ get_or words.now i 0 }
{
    words.get(i).copied().unwrap_or(0)
}

// Byte j of a word, 0 the lowest.
fn byte(word: u32, j: usize) -> u8
    requires { j < 4 }
    ensures { result ≡ byte_of word j }
{
    word.to_le_bytes()[j]
}

// The version's entries in a slot, behind its first three words.
fn entries_at(words: &[u32], slot: u8) -> [u32; 16]
    ensures { result ≡ tab 16 (λ k. get_or words.now (27 * slot + 3 + k) 0) }
{
    let a = SLOT * slot as usize + 3;
    array::from_fn(|k| word(words, a + k))
}

// The operation's bytes in a slot, four to a word, behind the entries.
fn operation_at(words: &[u32], slot: u8) -> [u8; 32]
    ensures { result ≡ tab 32 (λ k. byte_of (get_or words.now (27 * slot + 19 + k / 4) 0) (k % 4)) }
{
    let a = SLOT * slot as usize + 19;
    array::from_fn(|k| byte(word(words, a + k / 4), k % 4))
}

// The event that a slot holds.
pub fn load(words: &[u32], slot: u8) -> Event
    ensures { result ≡ event_at words.now slot }
{
    let a = SLOT * slot as usize;
    Event {
        origin: ReplicaIdx(word(words, a) as usize),
        number: word(words, a + 1),
        version: Row {
            entries: entries_at(words, slot),
        },
        len: word(words, a + 2) as usize,
        operation: operation_at(words, slot),
    }
}

// The words that hold an operation's bytes.
fn words_of(operation: &[u8; 32]) -> [u32; 8]
    ensures { result ≡ tab 8 (word_of operation.now) }
{
    array::from_fn(|k| {
        let i = 4 * k;
        u32::from_le_bytes([
            operation[i],
            operation[i + 1],
            operation[i + 2],
            operation[i + 3],
        ])
    })
}

// Stores words from a place on, as far as there is room.
fn put_run(words: &mut [u32], a: usize, src: &[u32])
    ensures { Ran words.old words.new a (length src.now) (λ k. get_or src.now k 0) }
{
    if a < words.len() {
        let n = src.len().min(words.len() - a);
        words[a..a + n].copy_from_slice(&src[..n]);
    }
}

// Puts an event into a slot.
pub(crate) fn save(words: &mut [u32], slot: u8, event: Event)
    requires { (event.origin.0 < 16) × (event.len ≤ 32) }
    ensures { Saved words.old words.new slot event }
{
    let a = SLOT * slot as usize;
    put_run(
        words,
        a,
        &[event.origin.0 as u32, event.number, event.len as u32],
    );
    put_run(words, a + 3, &event.version.entries);
    put_run(words, a + 19, &words_of(&event.operation));
}
