// The numbers of a set, and the limits that every set keeps (SPEC 1).
#![tactic(auto)]

pub mod limits;
pub mod numbers;
pub mod set1;
