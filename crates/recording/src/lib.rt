// What the calls record and find: each function takes the store and the transaction lent, and answers what its definition in the crate `rules` says,
// on every input. Nothing is known of the length of a lent array's list, so a contract reads it through `array`.

#![tactic(auto)]

pub mod candidates;
pub mod changed;
pub mod laid;
pub mod lookup;
pub mod reads;
pub mod stamps;
