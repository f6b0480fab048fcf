// One row per member, each row one entry per member: what we know of what each member has.
ghost use Rattle.std.specs.Prelude.{◌≡◌, cond};
ghost use Rattle.lists.specs.Lists.{over, all};
ghost use Rattle.clock.specs.Becomes.{Becomes, BecomesWith};
ghost use Rattle.clock.specs.Entries.{zero_entries, at_most};
ghost use Rattle.clock.specs.Matrix.{row_of, cell, with_row_at, fits_update, new_matrix, version_at, set_row, no_columns, raised_of, set_row_incremental, settled, settled_cut, column_wise_min, valid_of, same_rows, same_matrix};
ghost use Rattle.clock.specs.Sameness.{same_matrix_equiv, same_matrix_per};

use crate::causal_frontier::CausalFrontier;
use crate::id::ReplicaIdx;
use crate::version_vector::{MEMBERS, Row, Version, fit};
use refusal::Refusal;

// kept: rows and entries in arrays whose count stands beside them, here and in Version and CausalFrontier: no heap, fixed memory, and plain types can be copied
#[derive(Clone, Copy, Debug)]
pub struct MatrixClock {
    pub members: usize,
    pub origin: ReplicaIdx,
    pub rows: [Row; 16],
}

// The columns that the last delivery raised: the list of document 01, a mark for each place.
#[derive(Clone, Copy, Debug, PartialEq, Eq)]
pub struct Columns {
    pub raised: [bool; 16],
}

impl Columns {
    // No column is raised.
    pub fn none() -> Columns
        ensures { result.raised ≡ no_columns }
    {
        Columns {
            raised: [false; 16],
        }
    }
}

// The columns in which a version is above a row.
// kept: a loop like those of `settled_cut` and `diagonal_row`, not by the closure of `Row::merge`, which sees two entries and no place: theirs would see the
// place and the clock, and here an array of bools is filled; each would add a contract of the closure to a loop of three to five lines
fn raised_columns(row: Row, version: Row, members: usize) -> Columns
    ensures { result.raised ≡ raised_of members row.entries version.entries }
{
    let n = members.min(MEMBERS);
    let mut r = Columns::none();
    for j in 0..n {
        r.raised[j] = row.entries[j] < version.entries[j];
    }
    r
}

impl MatrixClock {
    // A matrix of zeros; `origin` is our own place.
    pub fn new(origin: ReplicaIdx, members: usize) -> Result<MatrixClock, Refusal>
        ensures { result ≡ new_matrix origin.0 members }
    {
        fit(members, members, origin.0, origin.0)?;
        let row = Row::zeros();
        Ok(MatrixClock {
            members,
            origin,
            rows: [row; 16],
        })
    }

    // The row at a place, and zeros where there is none.
    pub fn row(&self, idx: ReplicaIdx) -> Row
        ensures { result.entries ≡ row_of self.now.rows idx.0 }
    {
        self.rows.get(idx.0).copied().unwrap_or(Row::zeros())
    }

    // Another row at a place; unchanged where there is none.
    // kept: the three lines of `Row::set`, over rows; `get_mut` was tried for both, and the proof did not close
    pub fn put_row(&mut self, idx: ReplicaIdx, row: Row)
        ensures { self.new ≡ with_row_at self.old idx.0 row.entries }
    {
        let at = idx.0;
        if at < MEMBERS {
            self.rows[at] = row;
        }
    }

    // The version of the member at a place.
    pub fn version_by_idx(&self, idx: ReplicaIdx) -> Result<Version, Refusal>
        ensures { result ≡ version_at self.now idx.0 }
    {
        fit(self.members, self.members, self.origin.0, idx.0)?;
        Ok(Version {
            members: self.members,
            origin: idx,
            row: self.row(idx),
        })
    }

    // Our own version.
    pub fn origin_version(&self) -> Result<Version, Refusal>
        ensures { result ≡ version_at self.now self.now.origin.0 }
    {
        self.version_by_idx(self.origin)
    }

    // A version as the row at a place.
    pub fn set_by_idx(&mut self, idx: ReplicaIdx, version: &Version) -> Result<(), Refusal>
        ensures { Becomes self.old self.new result (set_row self.old idx.0 version.now) }
    {
        self.fit_update(idx, version)?;
        self.put_row(idx, version.row);
        Ok(())
    }

    // The row at a place takes every larger entry of a version; those columns are answered.
    pub fn set_by_idx_incremental(
        &mut self,
        idx: ReplicaIdx,
        version: &Version,
    ) -> Result<Columns, Refusal>
        ensures { BecomesWith self.old self.new result (set_row_incremental self.old idx.0 version.now) }
    {
        self.fit_update(idx, version)?;
        let row = self.row(idx);
        self.put_row(idx, row.join(version.row, self.members));
        Ok(raised_columns(row, version.row, self.members))
    }

    // For each raised column: if a row holds exactly the frontier's entry it stays, else it becomes the least of the column.
    pub fn column_wise_min_incremental(
        &self,
        last: &CausalFrontier,
        columns: Columns,
    ) -> Result<CausalFrontier, Refusal>
        ensures { result ≡ column_wise_min self.now last.now columns }
    {
        fit(self.members, last.members, self.origin.0, self.origin.0)?;
        Ok(CausalFrontier {
            members: last.members,
            row: self.settled_cut(last.row, columns),
        })
    }

    // Whether no row i has entry j above row j's entry j, and our own row is entrywise the largest.
    pub fn is_valid(&self) -> Result<bool, Refusal>
        ensures { result ≡ valid_of self.now }
    {
        fit(self.members, self.members, self.origin.0, self.origin.0)?;
        Ok(self.rows_at_most(self.diagonal_row()) && self.rows_at_most(self.row(self.origin)))
    }

    // Whether a version can be set as the row at a place.
    fn fit_update(&self, idx: ReplicaIdx, version: &Version) -> Result<(), Refusal>
        ensures { result ≡ fits_update self.now idx.0 version.now }
    {
        fit(self.members, version.members, self.origin.0, idx.0)?;
        fit(
            self.members,
            version.members,
            version.origin.0,
            version.origin.0,
        )
    }

    // Entry j of row i.
    fn cell(&self, i: usize, j: usize) -> u32
        ensures { result ≡ cell self.now.rows i j }
    {
        self.row(ReplicaIdx(i)).get(ReplicaIdx(j))
    }

    // What a raised column's entry becomes.
    fn settled_entry(&self, j: usize, last: u32) -> u32
        ensures { result ≡ settled self.now.rows self.now.members j last }
    {
        let mut low = self.cell(0, j);
        for i in 0..self.members {
            let seq = self.cell(i, j);
            if seq == last {
                return last;
            }
            low = low.min(seq);
        }
        low
    }

    // The frontier's entries, column by column; one whose column is not raised stays.
    fn settled_cut(&self, cut: Row, columns: Columns) -> Row
        ensures { result.entries ≡ settled_cut self.now.rows self.now.members columns.raised cut.entries }
    {
        let n = self.members.min(MEMBERS);
        let mut r = cut;
        for j in 0..n {
            if columns.raised[j] {
                r.entries[j] = self.settled_entry(j, cut.entries[j]);
            }
        }
        r
    }

    // Each row's entry at its own place.
    fn diagonal_row(&self) -> Row
        ensures { result.entries ≡ over 0 self.now.members (λ j. cell self.now.rows j j) zero_entries }
    {
        let n = self.members.min(MEMBERS);
        let mut r = Row::zeros();
        for j in 0..n {
            r.entries[j] = self.cell(j, j);
        }
        r
    }

    // Whether no row is above another row in any entry.
    fn rows_at_most(&self, top: Row) -> bool
        ensures { result ≡ all self.now.members (λ i. at_most self.now.members (row_of self.now.rows i) top.entries) }
    {
        self.rows
            .iter()
            .take(self.members)
            .all(|row| row.at_most(top, self.members))
    }

    // Whether the rows of the members are the same.
    fn same_rows(&self, other: &MatrixClock) -> bool
        ensures { result ≡ same_rows self.now.members self.now.rows other.now.rows }
    {
        self.rows
            .iter()
            .zip(&other.rows)
            .take(self.members)
            .all(|(row, other)| row.eq(*other, self.members))
    }
}

// Same list, same origin, same rows.
impl PartialEq for MatrixClock {
    ghost eq = { same_matrix };

    ghost laws = { same_matrix_per };

    fn eq(&self, other: &MatrixClock) -> bool {
        self.members == other.members && self.origin == other.origin && self.same_rows(other)
    }
}

impl Eq for MatrixClock {
    ghost laws = { same_matrix_equiv };
}
