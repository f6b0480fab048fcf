// The replica: names, clocks, known rows, and its two stores, whose events lie in words that the caller lends.
ghost use Rattle.std.specs.Prelude.{◌≡◌, ℕ, List};
ghost use Rattle.telegram.specs.Reading.{texts};
ghost use Rattle.tcsb.specs.Replica.{members_of};
ghost use Rattle.tcsb.specs.Tcsb.{view, Founds, has_words};

use crate::internalizer::Translation;
use clock::causal_frontier::CausalFrontier;
use clock::id::ReplicaIdx;
use clock::matrix_clock::{Columns, MatrixClock};
use refusal::Refusal;
use store::order::Store;
use telegram::list::{Names, judge_list};

// The most events that wait.
pub const WAITING: usize = 64;

// The most events of the outbox.
pub const KEPT: usize = 256;

// How many words the inbox takes, and the outbox.
pub const INBOX: usize = 1728;

pub const OUTBOX: usize = 6912;

// The names are parts of the member list, which the caller lends, too.
#[derive(Clone, Copy, Debug)]
pub struct Tcsb {
    pub(crate) names: Names,
    pub(crate) matrix: MatrixClock,
    pub(crate) frontier: CausalFrontier,
    pub(crate) raised: Columns,
    pub(crate) known: [Translation; 16],
    pub(crate) inbox: Store,
    pub(crate) outbox: Store,
}

// Whether the words that are lent hold both stores.
pub(crate) fn has_words(inbox: usize, outbox: usize) -> bool
    ensures { result ≡ has_words inbox outbox }
{
    INBOX <= inbox && OUTBOX <= outbox
}

impl Tcsb {
    // Founds a replica on a closed list of members, each name a part of `list`; we are the one at `place`. Refused with 4 where the words that
    // are lent don't hold the stores; then 4 for a count or a length, 6 for a name, 9 for our own place.
    pub fn new(
        list: &[u8],
        names: &Names,
        place: usize,
        inbox: &[u32],
        outbox: &[u32],
    ) -> Result<Tcsb, Refusal>
        ensures { Founds list.now names.now place inbox.now outbox.now result }
    {
        if !has_words(inbox.len(), outbox.len()) || names.count < 2 {
            return Err(Refusal::OutOfRange);
        }
        judge_list(list, names)?;
        Ok(Tcsb {
            names: *names,
            matrix: MatrixClock::new(ReplicaIdx(place), names.count)?,
            frontier: CausalFrontier::new(names.count)?,
            raised: Columns::none(),
            known: [Translation::none(); 16],
            inbox: Store::new(WAITING),
            outbox: Store::new(KEPT),
        })
    }

    // Names and count; the names are parts of the member list.
    pub fn members(&self) -> Names
        ensures same { result ≡ self.now.names }
        ensures told { (list p q : List ℕ) → texts list result ≡ members_of (view self.now list p q) }
    {
        self.names
    }

    // The stable cut as it stands.
    pub fn frontier(&self) -> CausalFrontier
        ensures same { result ≡ self.now.frontier }
        ensures told { (list p q : List ℕ) → result ≡ (view self.now list p q).frontier }
    {
        self.frontier
    }
}
