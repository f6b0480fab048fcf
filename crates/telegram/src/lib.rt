// Telegrams: what travels between controllers, read from any bytes and written into a lent buffer.
#![tactic(auto)]

pub mod batch;
pub mod body;
pub mod event;
pub mod field;
pub mod head;
pub mod items;
pub mod list;
pub mod since;
