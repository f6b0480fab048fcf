// The replica: Tcsb's calls over clocks, telegrams and stores.
#![tactic(auto)]

pub mod batch;
pub mod delivery;
pub mod internalizer;
pub mod receive;
pub mod tcsb;
pub mod writing;
