// What commit decides, and nothing that it stores: the first gate that ends a run, how a run ends there, what it leaves and what it answers.

#![tactic(auto)]

pub mod answers;
pub mod ends;
pub mod first;
pub mod gate;
mod gates;
mod left;
pub mod none;
pub mod stop;
