// The batch telegram: 2, list, sender's place, sender's version, count, event bodies.
ghost use Rattle.std.specs.Prelude.{◌≡◌};
ghost use Rattle.telegram.specs.Reading.{body, batch};
ghost use Rattle.telegram.specs.Writing.{head_spelt, Wrote};

use crate::body::{Body, read_fields};
use crate::field::Kind;
use crate::head::{Head, write_head};
use crate::items::{Item, read_items};
use leb128::Got;
use refusal::Refusal;

// The most events of a batch.
pub const EVENTS: u32 = 256;

// So many bodies from a place on, each read by itself with `read_body`.
#[derive(Clone, Copy, Debug, PartialEq, Eq)]
pub struct Batch {
    pub head: Head,
    pub count: usize,
    pub bodies: usize,
}

impl Item for Body {
    ghost read_of = { body };

    fn read(s: &[u8], at: usize, names: usize) -> Result<Got<Body>, Refusal> {
        read_fields(s, at, names)
    }
}

// What a batch telegram says, or why it is refused.
pub fn read_batch(s: &[u8]) -> Result<Batch, Refusal>
    ensures { result ≡ batch s.now }
{
    let items = read_items::<Body>(s, Kind::Batch, EVENTS)?;
    Ok(Batch {
        head: items.head,
        count: items.count,
        bodies: items.start,
    })
}

// Writes a batch telegram up to its bodies, the names being parts of s; `write_body` then writes each body behind it. Refused with 15 where
// the bodies, `behind` bytes in all, would not fit.
pub fn write_batch_head(
    out: &mut [u8],
    s: &[u8],
    head: &Head,
    count: usize,
    behind: usize,
) -> Result<usize, Refusal>
    ensures { Wrote out.old out.new 0 behind (head_spelt 2 256 s.now head.now count) result }
{
    write_head(out, Kind::Batch, EVENTS as usize, s, head, count, behind)
}
