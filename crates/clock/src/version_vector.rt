// Versions: one entry per member, and the member whose event it belongs to.
ghost use Rattle.std.specs.Prelude.{◌≡◌, ℕ, ◌<◌, ◌≤◌, ◌^◌, set};
ghost use Rattle.lists.specs.Lists.{at};
ghost use Rattle.clock.specs.Becomes.{Becomes};
ghost use Rattle.clock.specs.Entries.{zero_entries, merge_entries, join_entries, meet_entries, at_most, sum_entries, same_entries};
ghost use Rattle.clock.specs.Version.{fits_of, new_version, increment_of, join_of, meet_of, sum_of, seq_of, set_of, id_of, dependencies_of, includes_of, compare_of, versions_order, entries_order, same_version, version_from, dependencies, dependency_id, dependencies_to};
ghost use Rattle.clock.specs.Sameness.{same_version_equiv, same_version_per};

use crate::causal_frontier::CausalFrontier;
use crate::id::{EventId, ReplicaIdx};
use refusal::Refusal;
use std::cmp::Ordering;

pub const MEMBERS: usize = 16;

pub const LAST_NUMBER: u32 = u32::MAX;

// One entry per member, by place; the entries behind the members are there and mean nothing.
#[derive(Clone, Copy, Debug)]
pub struct Row {
    pub entries: [u32; 16],
}

#[derive(Clone, Copy, Debug)]
pub struct Version {
    pub members: usize,
    pub origin: ReplicaIdx,
    pub row: Row,
}

// The first `count` of `ids`.
// kept: a buffer with its count, by the rules "no heap, fixed memory" and "plain types can be copied".
#[derive(Clone, Copy, Debug)]
pub struct Dependencies {
    pub count: usize,
    pub ids: [EventId; 16],
}

// Counts outside 2 to 16 or unlike: 4. A place outside the list: 9.
pub(crate) fn fit(members: usize, other: usize, place: usize, another: usize) -> Result<(), Refusal>
    ensures { result ≡ fits_of members other place another }
{
    if members < 2 || MEMBERS < members || members != other {
        return Err(Refusal::OutOfRange);
    }
    if members <= place || members <= another {
        return Err(Refusal::BadPlace);
    }
    Ok(())
}

// kept: `members` goes beside a row through these methods, which are public and stand so in docs/PROMISES.md (`join`, `meet`, `at_most`, `compare`, `sum`)
impl Row {
    // A row of zeros.
    pub fn zeros() -> Row
        ensures { result.entries ≡ zero_entries }
    {
        Row { entries: [0; 16] }
    }

    // The entry at a place, and 0 where there is none.
    pub fn get(self, idx: ReplicaIdx) -> u32
        ensures { result ≡ at self.entries idx.0 }
    {
        self.entries.get(idx.0).copied().unwrap_or(0)
    }

    // The row with another entry at a place; unchanged where there is none.
    pub fn set(mut self, idx: ReplicaIdx, value: u32) -> Row
        ensures { result.entries ≡ set self.entries idx.0 value }
    {
        let at = idx.0;
        if at < MEMBERS {
            self.entries[at] = value;
        }
        self
    }

    // What `pick` makes of the two entries of each member; the entries behind the members stay.
    fn merge<F: Fn(u32, u32) -> u32>(self, other: Row, members: usize, pick: F) -> Row
        ghost by: { ℕ → ℕ → ℕ }
        requires callable { F.IsAlwaysCallable pick }
        requires picks { (x y r : ℕ) → x < 2 ^ 32 → y < 2 ^ 32 → F.post pick x y r → r ≡ by x y }
        ensures { result.entries ≡ merge_entries by members self.entries other.entries }
    {
        let n = members.min(MEMBERS);
        let mut r = self;
        for i in 0..n {
            r.entries[i] = pick(self.entries[i], other.entries[i]);
        }
        r
    }

    // The larger, entry by entry.
    pub fn join(self, other: Row, members: usize) -> Row
        ensures { result.entries ≡ join_entries members self.entries other.entries }
    {
        self.merge(other, members, u32::max)
    }

    // The smaller, entry by entry.
    pub fn meet(self, other: Row, members: usize) -> Row
        ensures { result.entries ≡ meet_entries members self.entries other.entries }
    {
        self.merge(other, members, u32::min)
    }

    // Whether no entry is above the other's.
    // kept: an index in place of zip, take and all, by which this takes 1.4 times the time at sixteen members, and `eq` twice
    pub fn at_most(self, other: Row, members: usize) -> bool
        ensures { result ≡ at_most members self.entries other.entries }
    {
        let n = members.min(MEMBERS);
        for i in 0..n {
            if other.entries[i] < self.entries[i] {
                return false;
            }
        }
        true
    }

    // All entries added up.
    pub fn sum(self, members: usize) -> u64
        ensures { result ≡ sum_entries members self.entries }
    {
        let n = members.min(MEMBERS);
        let mut total: u64 = 0;
        for i in 0..n {
            total += u64::from(self.entries[i]);
        }
        total
    }

    // Whether all entries are the same.
    pub fn eq(self, other: Row, members: usize) -> bool
        ensures { result ≡ same_entries members self.entries other.entries }
    {
        self.at_most(other, members) && other.at_most(self, members)
    }

    // Entry by entry: larger in some and smaller in others is concurrent.
    pub fn compare(self, other: Row, members: usize) -> Option<Ordering>
        ensures { result ≡ entries_order members self.entries other.entries }
    {
        match (self.at_most(other, members), other.at_most(self, members)) {
            (true, true) => Some(Ordering::Equal),
            (true, false) => Some(Ordering::Less),
            (false, true) => Some(Ordering::Greater),
            (false, false) => None,
        }
    }
}

impl Version {
    // A version of zeros.
    pub fn new(origin: ReplicaIdx, members: usize) -> Result<Version, Refusal>
        ensures { result ≡ new_version origin.0 members }
    {
        fit(members, members, origin.0, origin.0)?;
        let row = Row::zeros();
        Ok(Version {
            members,
            origin,
            row,
        })
    }

    // Raises the origin's entry by one.
    pub fn increment(&mut self) -> Result<(), Refusal>
        ensures { Becomes self.old self.new result (increment_of self.old) }
    {
        let seq = self.origin_seq()?;
        if seq == LAST_NUMBER {
            return Err(Refusal::LastNumber);
        }
        self.row = self.row.set(self.origin, seq + 1);
        Ok(())
    }

    // Nothing happens if our entry for the other's origin is at least the other's own; else the larger, entry by entry.
    pub fn join(&mut self, other: &Version) -> Result<(), Refusal>
        ensures { Becomes self.old self.new result (join_of self.old other.now) }
    {
        fit(self.members, other.members, self.origin.0, other.origin.0)?;
        let seq = other.row.get(other.origin);
        if seq == 0 {
            return Err(Refusal::BadEventNumber);
        }
        if self.row.get(other.origin) < seq {
            self.row = self.row.join(other.row, self.members);
        }
        Ok(())
    }

    // The smaller, entry by entry.
    pub fn meet(&mut self, other: &Version) -> Result<(), Refusal>
        ensures { Becomes self.old self.new result (meet_of self.old other.now) }
    {
        fit(self.members, other.members, self.origin.0, other.origin.0)?;
        self.row = self.row.meet(other.row, self.members);
        Ok(())
    }

    // The entry at a place.
    pub fn seq_by_idx(&self, idx: ReplicaIdx) -> Result<u32, Refusal>
        ensures { result ≡ seq_of self.now idx.0 }
    {
        fit(self.members, self.members, self.origin.0, idx.0)?;
        Ok(self.row.get(idx))
    }

    // The origin's own entry.
    pub fn origin_seq(&self) -> Result<u32, Refusal>
        ensures { result ≡ seq_of self.now self.now.origin.0 }
    {
        self.seq_by_idx(self.origin)
    }

    // Another entry at a place.
    pub fn set_by_idx(&mut self, idx: ReplicaIdx, value: u32) -> Result<(), Refusal>
        ensures { Becomes self.old self.new result (set_of self.old idx.0 value) }
    {
        fit(self.members, self.members, self.origin.0, idx.0)?;
        self.row = self.row.set(idx, value);
        Ok(())
    }

    // All entries added up.
    pub fn sum(&self) -> Result<u64, Refusal>
        ensures { result ≡ sum_of self.now }
    {
        fit(self.members, self.members, self.origin.0, self.origin.0)?;
        Ok(self.row.sum(self.members))
    }

    // The id of the event that the version belongs to.
    pub fn event_id(&self) -> Result<EventId, Refusal>
        ensures { result ≡ id_of self.now }
    {
        let idx = self.origin;
        match self.seq_by_idx(idx)? {
            0 => Err(Refusal::BadEventNumber),
            seq => Ok(EventId { idx, seq }),
        }
    }

    // The ids that the version names: by place, each entry above 0, the origin's less one.
    pub fn dependencies(&self) -> Result<Dependencies, Refusal>
        ensures { result ≡ dependencies_of self.now }
    {
        let members = self.members;
        fit(members, members, self.origin.0, self.origin.0)?;
        Ok(dependencies_listed(self))
    }

    // Whether every entry is at least the frontier's.
    pub fn includes_frontier(&self, frontier: &CausalFrontier) -> Result<bool, Refusal>
        ensures { result ≡ includes_of self.now frontier.now }
    {
        fit(self.members, frontier.members, self.origin.0, self.origin.0)?;
        Ok(frontier.row.at_most(self.row, self.members))
    }

    // By document 01's four cases.
    pub fn compare(&self, other: &Version) -> Result<Option<Ordering>, Refusal>
        ensures { result ≡ compare_of self.now other.now }
    {
        let origin = self.origin.0;
        fit(self.members, other.members, origin, other.origin.0)?;
        Ok(versions_order(self, other))
    }

    // A frontier's entries, with an origin chosen for them.
    // kept: no TryFrom, since it takes an origin, too; `version_by_idx` has its shape and other entries, those of a matrix's row
    pub fn from_frontier(frontier: &CausalFrontier, origin: ReplicaIdx) -> Result<Version, Refusal>
        ensures { result ≡ version_from frontier.now origin.0 }
    {
        fit(frontier.members, frontier.members, origin.0, origin.0)?;
        Ok(Version {
            members: frontier.members,
            origin,
            row: frontier.row,
        })
    }
}

// Same list, same origin, same entries of its members.
impl PartialEq for Version {
    ghost eq = { same_version };

    ghost laws = { same_version_per };

    fn eq(&self, other: &Version) -> bool {
        self.members == other.members
            && self.origin == other.origin
            && self.row.eq(other.row, self.members)
    }
}

impl Eq for Version {
    ghost laws = { same_version_equiv };
}

// How two versions of one list compare.
fn versions_order(a: &Version, b: &Version) -> Option<Ordering>
    ensures { result ≡ versions_order a.now b.now }
{
    let own = a.row.get(a.origin);
    let other_own = b.row.get(b.origin);
    if a.origin == b.origin {
        return Some(own.cmp(&other_own));
    }
    match (other_own <= a.row.get(b.origin), own <= b.row.get(a.origin)) {
        (true, true) => a.row.compare(b.row, a.members),
        (true, false) => Some(Ordering::Greater),
        (false, true) => Some(Ordering::Less),
        (false, false) => None,
    }
}

// The id that a place's entry names: the origin's less one.
fn dependency(idx: ReplicaIdx, origin: ReplicaIdx, seq: u32) -> EventId
    ensures { result ≡ dependency_id idx.0 origin.0 seq }
{
    let seq = if idx == origin {
        seq.saturating_sub(1)
    } else {
        seq
    };
    EventId { idx, seq }
}

// The ids that the version names, where it is known to fit.
fn dependencies_listed(version: &Version) -> Dependencies
    requires { version.now.members ≤ 16 }
    ensures { result ≡ dependencies (dependencies_to version.now.members version.now) }
{
    let mut r = Dependencies {
        count: 0,
        ids: [EventId::default(); 16],
    };
    for i in 0..version.members {
        let seq = version.row.entries[i];
        if seq != 0 {
            r.ids[r.count] = dependency(ReplicaIdx(i), version.origin, seq);
            r.count += 1;
        }
    }
    r
}
