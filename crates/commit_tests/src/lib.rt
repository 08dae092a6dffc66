// What the steps of commit ask of transaction, schedule and store: the faults of a schedule, the final writes, the four tests. Each function takes
// them lent, and answers what its definition in the crate `rules` says, on every input.

#![tactic(auto)]

pub mod conflicts;
pub mod faults;
pub mod finals;
