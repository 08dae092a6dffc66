// The calls beside commit and recovery: each takes the store by value, reads it through lent fields, and changes it by one pass over a
// journal of the puts that it plans.

#![tactic(auto)]

pub mod abort;
pub mod begin;
pub mod lock;
pub mod lookup;
pub mod read;
mod refusal;
pub mod write;
