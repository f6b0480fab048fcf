// The clocks of the broadcast, file for file as in the Rust.
#![tactic(auto)]

pub mod causal_frontier;
pub mod id;
pub mod matrix_clock;
pub mod version_vector;
