// The parts of keys and signatures, and the calls that pack and unpack elements of set 1 (SPEC 6.7 to 6.12).
#![tactic(auto)]

pub mod parts;
pub mod set1;
