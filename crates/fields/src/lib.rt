// How code reads what it is lent: the store's arrays within their bounds, and the few tests that every call asks. A contract reads the list of
// a lent array through `array`, whatever its length.

#![tactic(auto)]

pub mod lent;
pub mod locks;
pub mod txids;
pub mod walk;
