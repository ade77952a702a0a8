// Schedules as bytes (01, "Schedule bytes and listing"): the thread number, the node number, then
// entries, each its code and then its operands. `read` takes them apart, `write` puts them together.
#![tactic(auto)]

pub mod code;
pub mod read;
pub mod write;
