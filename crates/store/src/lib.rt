// Stores of events: an event lies in a slot of words that the caller lends, and an order names the slots by the events' ids.
#![tactic(auto)]

pub mod event;
pub mod order;
