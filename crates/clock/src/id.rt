// Event ids: a member's place and the event's number.
ghost use Rattle.std.specs.Prelude.{◌≡◌};
ghost use Rattle.clock.specs.Version.{predecessor_of};

use crate::version_vector::Version;
use refusal::Refusal;

// A member's place in our own list.
#[derive(Clone, Copy, Debug, Default, PartialEq, Eq, PartialOrd, Ord)]
pub struct ReplicaIdx(pub usize);

// Ids are compared by place, then by number.
#[derive(Clone, Copy, Debug, Default, PartialEq, Eq, PartialOrd, Ord)]
pub struct EventId {
    pub idx: ReplicaIdx,
    pub seq: u32,
}

impl EventId {
    // Whether the version's entry for the id's place is at least the id's number.
    pub fn is_predecessor_of(self, version: &Version) -> Result<bool, Refusal>
        ensures { result ≡ predecessor_of self version.now }
    {
        Ok(self.seq <= version.seq_by_idx(self.idx)?)
    }
}
