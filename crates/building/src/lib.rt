// What all building shares: the faults that a call looks for (`fault`), how many bytes fields take (`size`), how a packet begins
// (`opening`), and what an answer says (`sent`). An inner crate: the layers above call it, a user of the library does not.
#![tactic(auto)]

pub mod fault;
pub mod opening;
pub mod sent;
pub mod size;
