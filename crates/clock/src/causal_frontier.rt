// The stable cut: one entry per member, of no event's own.
ghost use Rattle.std.specs.Prelude.{◌≡◌};
ghost use Rattle.clock.specs.Becomes.{Becomes};
ghost use Rattle.clock.specs.Frontier.{new_frontier, cut_seq, cut_set, cut_sum, cut_join, cut_join_version, cut_meet, contains_of, cut_compare, same_frontier, frontier_from};
ghost use Rattle.clock.specs.Sameness.{same_frontier_equiv, same_frontier_per};

use crate::id::{EventId, ReplicaIdx};
use crate::version_vector::{Row, Version, fit};
use refusal::Refusal;
use std::cmp::Ordering;

#[derive(Clone, Copy, Debug)]
pub struct CausalFrontier {
    pub members: usize,
    pub row: Row,
}

// kept: methods beside those of Version, and `new` beside MatrixClock's, too; one trait over the clocks is no plainer: a version and a matrix are asked whether
// their origin fits, a cut is not, so that each promise of the trait would take the definition of the refusals as another member.
// `join`, `meet`, `join_version` and `set_by_idx` share their first line with each other, and no more
impl CausalFrontier {
    // A frontier of zeros.
    pub fn new(members: usize) -> Result<CausalFrontier, Refusal>
        ensures { result ≡ new_frontier members }
    {
        fit(members, members, 0, 0)?;
        let row = Row::zeros();
        Ok(CausalFrontier { members, row })
    }

    // The entry at a place.
    pub fn seq_by_idx(&self, idx: ReplicaIdx) -> Result<u32, Refusal>
        ensures { result ≡ cut_seq self.now idx.0 }
    {
        fit(self.members, self.members, idx.0, idx.0)?;
        Ok(self.row.get(idx))
    }

    // Another entry at a place.
    pub fn set_by_idx(&mut self, idx: ReplicaIdx, value: u32) -> Result<(), Refusal>
        ensures { Becomes self.old self.new result (cut_set self.old idx.0 value) }
    {
        fit(self.members, self.members, idx.0, idx.0)?;
        self.row = self.row.set(idx, value);
        Ok(())
    }

    // All entries added up.
    pub fn sum(&self) -> Result<u64, Refusal>
        ensures { result ≡ cut_sum self.now }
    {
        fit(self.members, self.members, 0, 0)?;
        Ok(self.row.sum(self.members))
    }

    // The larger of an event's version and ours, entry by entry.
    pub fn join_version(&mut self, version: &Version) -> Result<(), Refusal>
        ensures { Becomes self.old self.new result (cut_join_version self.old version.now) }
    {
        fit(
            self.members,
            version.members,
            version.origin.0,
            version.origin.0,
        )?;
        self.row = self.row.join(version.row, self.members);
        Ok(())
    }

    // The larger, entry by entry.
    pub fn join(&mut self, other: &CausalFrontier) -> Result<(), Refusal>
        ensures { Becomes self.old self.new result (cut_join self.old other.now) }
    {
        fit(self.members, other.members, 0, 0)?;
        self.row = self.row.join(other.row, self.members);
        Ok(())
    }

    // The smaller, entry by entry.
    pub fn meet(&mut self, other: &CausalFrontier) -> Result<(), Refusal>
        ensures { Becomes self.old self.new result (cut_meet self.old other.now) }
    {
        fit(self.members, other.members, 0, 0)?;
        self.row = self.row.meet(other.row, self.members);
        Ok(())
    }

    // Whether the entry at the id's place is at least its number.
    pub fn contains(&self, id: EventId) -> Result<bool, Refusal>
        ensures { result ≡ contains_of self.now id }
    {
        Ok(id.seq <= self.seq_by_idx(id.idx)?)
    }

    // Entry by entry.
    pub fn compare(&self, other: &CausalFrontier) -> Result<Option<Ordering>, Refusal>
        ensures { result ≡ cut_compare self.now other.now }
    {
        fit(self.members, other.members, 0, 0)?;
        Ok(self.row.compare(other.row, self.members))
    }

    // A version's entries.
    // kept: no TryFrom: the Rust and docs/PROMISES.md name it so, and a second name says no more
    pub fn from_version(version: &Version) -> Result<CausalFrontier, Refusal>
        ensures { result ≡ frontier_from version.now }
    {
        let members = version.members;
        fit(members, members, version.origin.0, version.origin.0)?;
        Ok(CausalFrontier {
            members,
            row: version.row,
        })
    }
}

// Same list, same entries of its members.
impl PartialEq for CausalFrontier {
    ghost eq = { same_frontier };

    ghost laws = { same_frontier_per };

    fn eq(&self, other: &CausalFrontier) -> bool {
        self.members == other.members && self.row.eq(other.row, self.members)
    }
}

impl Eq for CausalFrontier {
    ghost laws = { same_frontier_equiv };
}
