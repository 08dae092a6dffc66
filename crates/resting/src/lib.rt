// Which stores are admitted: those that recovery can mend, and those at rest, each test held to its definition in the crate `rules`.
// A test takes the store lent: its type says the lengths of its arrays, so a contract speaks of them as the definitions do.

#![tactic(auto)]

mod active;
mod chains;
mod postings;
pub mod repair;
pub mod rest;
mod slots;
