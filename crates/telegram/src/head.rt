// What batch and since begin with: kind, list, sender's place, sender's version.
ghost use Rattle.std.specs.Prelude.{◌≡◌, ◌≤◌, ◌<◌, true};
ghost use Rattle.telegram.specs.Fields.{number_of};
ghost use Rattle.telegram.specs.Reading.{head};
ghost use Rattle.telegram.specs.Meaning.{head_bytes, heading_of};
ghost use Rattle.telegram.specs.Writing.{list_fits, head_spelt, measured, Room, Put, Wrote};

use crate::body::{Place, entries_width, put_entries, read_entries};
use crate::field::{Kind, has_room, put_number, read_kind, read_place};
use crate::list::{Names, list_width, put_list, read_list};
use leb128::Got;
use refusal::Refusal;

// The sender's version has one entry per listed name, 0 behind them.
// kept: entries in an array whose count stands in the list: no heap, fixed memory, and plain types can be copied
#[derive(Clone, Copy, Debug, PartialEq, Eq)]
pub struct Head {
    pub names: Names,
    pub sender: Place,
    pub entries: [u32; 16],
}

// The head of a telegram of a kind.
#[tactic(auto, unfolding(crate::specs::Reading::head))]
pub(crate) fn read_head(s: &[u8], kind: Kind) -> Result<Got<Head>, Refusal>
    ensures { result ≡ head (number_of kind) s.now }
{
    let kind = read_kind(s, 0, kind)?;
    let list = read_list(s, kind.next)?;
    let names = list.value;
    let sender = read_place(s, list.next, names.count)?;
    let version = read_entries(s, sender.next, names.count)?;
    let entries = version.value;
    let value = Head {
        names,
        sender: Place(sender.value as usize),
        entries,
    };
    Ok(Got {
        value,
        next: version.next,
    })
}

// How many bytes a head takes with the count behind it, which is at most a limit.
fn head_width(
    kind: Kind,
    limit: usize,
    s: &[u8],
    head: &Head,
    count: usize,
) -> Result<usize, Refusal>
    requires { limit ≤ 256 }
    ensures { result ≡ measured (head_spelt (number_of kind) limit s.now head.now count) }
{
    let names = &head.names;
    let list = list_width(s, names)?;
    if names.count <= head.sender.0 {
        return Err(Refusal::BadPlace);
    }
    if limit < count {
        return Err(Refusal::OutOfRange);
    }
    let version = entries_width(&head.entries[..names.count]);
    Ok(leb128::width(kind.number()) + list + 1 + version + leb128::width(count as u32))
}

// Writes a head where it fits.
fn put_head(out: &mut [u8], kind: Kind, s: &[u8], head: &Head, count: u32) -> usize
    requires { (list_fits s.now head.now.names ≡ true) × (head.now.sender.0 < head.now.names.count) × Room out.old 0 (head_bytes (number_of kind) (heading_of s.now head.now) count) }
    ensures { Put out.old out.new 0 (head_bytes (number_of kind) (heading_of s.now head.now) count) result }
{
    let names = &head.names;
    let behind_kind = put_number(out, 0, kind.number());
    let behind_list = put_list(out, behind_kind, s, names);
    let behind_sender = put_number(out, behind_list, head.sender.0 as u32);
    let behind_version = put_entries(out, behind_sender, &head.entries[..names.count]);
    put_number(out, behind_version, count)
}

// Writes what a telegram of a kind begins with, up to its count, where as many bytes more find room behind it.
pub(crate) fn write_head(
    out: &mut [u8],
    kind: Kind,
    limit: usize,
    s: &[u8],
    head: &Head,
    count: usize,
    behind: usize,
) -> Result<usize, Refusal>
    requires { limit ≤ 256 }
    ensures { Wrote out.old out.new 0 behind (head_spelt (number_of kind) limit s.now head.now count) result }
{
    let width = head_width(kind, limit, s, head, count)?;
    if !has_room(out.len(), 0, width, behind) {
        return Err(Refusal::BufferShort);
    }
    Ok(put_head(out, kind, s, head, count as u32))
}
