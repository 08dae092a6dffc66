// Which transactions and schedules fit, each test held to its definition in the crate `rules`.

#![tactic(auto)]

mod apart;
pub mod schedule;
pub mod tx;
