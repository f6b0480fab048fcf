// What a batch and a since carry behind their head: a count, and so many things of one kind.
ghost use Rattle.std.specs.Prelude.{◌≡◌, ◌≤◌, ℕ, List};
ghost use Rattle.leb128.specs.Leb128.{Read};
ghost use Rattle.telegram.specs.Fields.{number_of, end_of, many};
ghost use Rattle.telegram.specs.Reading.{items_of, items_form, items};

use crate::field::{Kind, read_count};
use crate::head::{Head, read_head};
use crate::list::is_fair;
use leb128::Got;
use refusal::Refusal;

// A thing that stands behind a head, whose places count in the head's list.
pub(crate) trait Item: Sized {
    // what is read of a list's count, the bytes and a place
    ghost read_of: { ℕ → List ℕ → ℕ → Read Self };

    // The thing at a place, behind a list of so many names.
    fn read(s: &[u8], at: usize, names: usize) -> Result<Got<Self>, Refusal>
        requires { names ≤ 16 }
        ensures { result ≡ read_of names s.now at };
}

// A head, and so many things from a place on.
#[derive(Clone, Copy, Debug, PartialEq, Eq)]
pub(crate) struct Items {
    pub(crate) head: Head,
    pub(crate) count: usize,
    pub(crate) start: usize,
}

// The place behind so many things of a list of `names` names.
fn items_end<I: Item + Drop>(
    s: &[u8],
    at: usize,
    names: usize,
    count: usize,
) -> Result<usize, Refusal>
    requires { names ≤ 16 }
    ensures { result ≡ end_of (many count (I.read_of names s.now) at) }
{
    let mut next = at;
    for _ in 0..count {
        let item = I::read(s, next, names)?;
        next = item.next;
    }
    Ok(next)
}

// A head of a kind, a count and so many things, and that nothing follows them.
fn read_form<I: Item + Drop>(s: &[u8], kind: Kind, most: u32) -> Result<Items, Refusal>
    ensures { result ≡ items_form (number_of kind) most I.read_of items_of s.now }
{
    let head = read_head(s, kind)?;
    let count = read_count(s, head.next, 0, most)?;
    let start = count.next;
    let head = head.value;
    let count = count.value as usize;
    let end = items_end::<I>(s, start, head.names.count, count)?;
    if end != s.len() {
        return Err(Refusal::BytesFollow);
    }
    Ok(Items { head, count, start })
}

// What a telegram of a kind says, or why it is refused: a walk over its things decides every refusal of their form.
pub(crate) fn read_items<I: Item + Drop>(s: &[u8], kind: Kind, most: u32) -> Result<Items, Refusal>
    ensures { result ≡ items (number_of kind) most I.read_of s.now }
{
    let items = read_form::<I>(s, kind, most)?;
    if !is_fair(s, &items.head.names) {
        return Err(Refusal::BadName);
    }
    Ok(items)
}
