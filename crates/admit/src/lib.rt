// Admission: what every call but begin and recovery asks before anything else.

#![tactic(auto)]

pub mod admission;
