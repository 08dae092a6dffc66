// The replay of document 01: one line on the store (turn), a script fed in parts of any size (feed), a script in one buffer for callers in Rust or C (binding).

#![tactic(auto)]

mod answer;
pub mod binding;
pub mod feed;
mod held;
pub mod turn;
